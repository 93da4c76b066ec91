use crate::nikdawam_run;

#[test]
fn answers_fill_the_front(rt: HostRuntime) {
    let heap = rt.alloc();
    let mut buffer = [b'.'; 8];
    assert_eq!(rt; nikdawam_run(heap, b"(enter-name tag)", &mut buffer), 5);
    assert!(rt; buffer == *b"ok 1\n...");
    assert_eq!(rt; nikdawam_run(heap, b"; no request", &mut buffer), 0);
    assert!(rt; buffer == *b"ok 1\n...");
}

#[test]
fn a_short_buffer_is_left_alone(rt: HostRuntime) {
    let heap = rt.alloc();
    let mut buffer = [b'.'; 5];
    assert_eq!(rt;
        nikdawam_run(heap, b"(enter-name tag)", &mut buffer[0..4]),
        -1
    );
    assert!(rt; buffer == *b".....");
    assert_eq!(rt; nikdawam_run(heap, b"(enter-name tag)", &mut buffer), 5);
    assert!(rt; buffer == *b"ok 1\n");
}
