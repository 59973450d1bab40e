use field::FieldFault;
use std::process::Abort;

const MOST: u64 = 999999999999;

fn writes(rt: &impl Abort, number: u64, text: &[u8]) {
    let mut out = [0u8; 12];
    assert_eq!(rt; field::put(&mut out, number), Ok(()));
    let written: &[u8] = &out;
    assert!(rt; written == text);
    assert_eq!(rt; field::get(text, MOST), Ok(number));
}

fn refuses(rt: &impl Abort, text: &[u8], why: &str) {
    assert_eq!(rt; field::get(text, MOST), Err(FieldFault { at: 0 }), "{why}");
}

#[test]
fn numbers_are_written_and_read(rt: HostRuntime) {
    writes(&rt, 0, b"           0");
    writes(&rt, 9, b"           9");
    writes(&rt, 10, b"          10");
    writes(&rt, 4096, b"        4096");
    writes(&rt, 999999999999, b"999999999999");
}

#[test]
fn other_bytes_are_refused(rt: HostRuntime) {
    refuses(&rt, b"          07", "a leading zero");
    refuses(&rt, b"        1 00", "a space inside");
    refuses(&rt, b"7           ", "left-justified");
    refuses(&rt, b"         12x", "a letter");
    refuses(&rt, b"          -1", "a sign");
    refuses(&rt, b"            ", "spaces alone");
    refuses(&rt, b"", "no column");
}

#[test]
fn a_number_past_its_range_is_refused(rt: HostRuntime) {
    assert_eq!(rt; field::get(b"        4096", 4096), Ok(4096));
    assert_eq!(rt;
        field::get(b"        4097", 4096),
        Err(FieldFault { at: 0 })
    );
    let mut out = [b'-'; 4];
    assert_eq!(rt; field::put(&mut out, 9999), Ok(()));
    assert_eq!(rt; field::put(&mut out, 10000), Err(FieldFault { at: 0 }));
    let kept: &[u8] = &out;
    assert!(rt; kept == b"9999".as_slice());
}

#[test]
fn a_field_stands_in_its_columns(rt: HostRuntime) {
    let mut frame = *b"K------------!";
    assert_eq!(rt; field::put_at(&mut frame, 1, 12, 305), Ok(()));
    let text: &[u8] = &frame;
    assert!(rt; text == b"K         305!".as_slice());
    assert_eq!(rt; field::get_at(&frame, 1, 12, MOST), Ok(305));
    assert_eq!(rt;
        field::get_at(&frame, 2, 12, MOST),
        Err(FieldFault { at: 2 }),
        "a letter in it"
    );
    assert_eq!(rt;
        field::get_at(&frame, 3, 12, MOST),
        Err(FieldFault { at: 3 }),
        "past the end"
    );
}
