// Reports on a few inputs.
use super::line::column;
use super::report::report;
use arrayvec::ArrayString;
use itoa::Buffer;
use std::test::Fail;

#[test]
fn numbers(rt: HostRuntime) -> Result<(), Fail> {
    let mut text = ArrayString::<64>::new();
    text.push_str(Buffer::new().format(0u16));
    text.push_str(Buffer::new().format(40320u16));
    text.push_str(Buffer::new().format(65535u16));
    assert_eq!(rt; text.as_bytes(), b"04032065535".as_slice());
    Ok(())
}

#[test]
fn columns(rt: HostRuntime) {
    assert_eq!(rt; column(0, ' ').as_bytes(), b"0 ".as_slice());
    assert_eq!(rt; column(255, '\n').as_bytes(), b"255\n".as_slice());
}

#[test]
fn no_input(rt: HostRuntime) {
    assert_eq!(rt;
        report(b"").as_bytes(),
        b"refused 51\nrefused 51\n".as_slice()
    );
}

#[test]
fn left_sheet_refused(rt: HostRuntime) {
    let input = [0, 1, 16, 0, 3, 16, 0, 0, 9];
    assert_eq!(rt;
        report(&input).as_bytes(),
        b"refused 1\n0 0 0 0 0\n".as_slice()
    );
}
