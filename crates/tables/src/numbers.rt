ghost use Rattle.std.specs.Prelude.{◌≡◌};
ghost use Rattle.tables.specs.Refusals.{table_number, refusal_number};

use crate::result::*;

impl From<Table> for u8 {
    ghost from_gives = { λ t n. n ≡ table_number t };

    fn from(table: Table) -> u8 {
        match table {
            Table::Terms => 1,
            Table::Types => 2,
            Table::Names => 3,
            Table::Lists => 4,
            Table::Rows => 5,
        }
    }
}

impl From<CompileError> for u8 {
    ghost from_gives = { λ e n. n ≡ refusal_number e };

    fn from(error: CompileError) -> u8 {
        match error {
            CompileError::NoSuchEntityType(_) => 1,
            CompileError::NoSuchAttribute(_) => 2,
            CompileError::TypeError => 3,
            CompileError::UnsupportedFeature => 4,
            CompileError::Full(_) => 5,
            CompileError::BadInput => 6,
            CompileError::TooDeep => 7,
            CompileError::NotCovered => 8,
            CompileError::NotBoolean => 9,
            CompileError::BadRow => 10,
            CompileError::NoMemory => 11,
        }
    }
}
