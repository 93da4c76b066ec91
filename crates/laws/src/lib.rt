#![tactic(auto)]

ghost use Rattle.laws.specs.Lawful.{CallsAreLawful, FullComesExactlyWhenCellsAreMissing};
ghost use Rattle.laws.specs.Sound.{SoundTablesHoldOnce};

// What the calls that enter names, types and terms keep to, when they are refused with `Full`, and that the
// tables which they lead to hold each structure once.
#[tactic(auto, using(crate::proofs::Entries::name_lawful, crate::proofs::Entries::type_lawful, crate::proofs::Entries::term_lawful, crate::proofs::Entries::opening_sound, crate::proofs::Fullness::full_exactly, crate::proofs::Inverse::hold_once))]
fn calls_are_lawful()
    ensures lawful { CallsAreLawful }
    ensures full { FullComesExactlyWhenCellsAreMissing }
    ensures once { SoundTablesHoldOnce }
{}
