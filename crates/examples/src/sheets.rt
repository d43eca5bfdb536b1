// Sheets with known bytes, and bytes that are no sheets.
use drawing::Drawing;
use net::bag::Bag;
use net::interface::Net;
use net::numbers::{Label, PlaceNo, TransitionNo};
use reader::refusal::SheetRefusal;
use reader::sheet::SheetReader;
use std::test::Fail;
use writer::write::write;

#[test]
fn the_empty_net(rt: HostRuntime) {
    let mut buffer = [0xAAu8; 16627];
    assert_eq!(rt; write(&Drawing::new(), &mut buffer), Ok(3));
    assert_eq!(rt; &buffer[0..4], [0x10, 0x00, 0x00, 0xAA].as_slice());
}

#[test]
fn one_place_and_one_transition(rt: HostRuntime) -> Result<(), Fail> {
    let mut drawing = Drawing::new();
    let place = drawing.add_place(Label(1))?;
    let transition = drawing.add_transition(Label(5))?;
    drawing.set_weight(Bag::Cause, transition, place, 2)?;
    let mut buffer = [0xAAu8; 16627];
    assert_eq!(rt; write(&drawing, &mut buffer), Ok(7));
    assert_eq!(rt;
        &buffer[0..8],
        [0x10, 0x20, 0x20, 0x08, 0x0A, 0x04, 0x00, 0xAA].as_slice()
    );
    Ok(())
}

#[test]
fn a_sheet_answers_as_its_net(rt: HostRuntime) -> Result<(), Fail> {
    let mut reader = SheetReader::new();
    reader.open(&[0x10, 0x20, 0x20, 0x08, 0x0A, 0x04, 0x00])?;
    assert_eq!(rt; (reader.places(), reader.transitions()), (1, 1));
    assert_eq!(rt; reader.place_label(PlaceNo(0)), Some(Label(1)));
    assert_eq!(rt; reader.place_label(PlaceNo(1)), None);
    assert_eq!(rt; reader.transition_label(TransitionNo(0)), Some(Label(5)));
    assert_eq!(rt; reader.transition_label(TransitionNo(1)), None);
    assert_eq!(rt; reader.cause(TransitionNo(0), PlaceNo(0)), 2);
    assert_eq!(rt; reader.cause(TransitionNo(0), PlaceNo(1)), 0);
    assert_eq!(rt; reader.effect(TransitionNo(0), PlaceNo(0)), 0);
    Ok(())
}

#[test]
fn bytes_that_are_refused(rt: HostRuntime) {
    let mut reader = SheetReader::new();
    assert_eq!(rt; reader.open(&[0x10, 0x20]), Err(SheetRefusal::Short));
    assert_eq!(rt; reader.open(&[0x20, 0x00, 0x00]), Err(SheetRefusal::Form));
    assert_eq!(rt; reader.open(&[0x18, 0x20, 0x00]), Err(SheetRefusal::Places));
    assert_eq!(rt;
        reader.open(&[0x10, 0x10, 0x20]),
        Err(SheetRefusal::Transitions)
    );
    assert_eq!(rt;
        reader.open(&[0x10, 0x00, 0x00, 0x00]),
        Err(SheetRefusal::Length)
    );
    assert_eq!(rt; reader.open(&[0x10, 0x00, 0x01]), Err(SheetRefusal::Fill));
    assert_eq!(rt; SheetRefusal::Fill.number(), 7);
}

#[test]
fn a_refused_sheet_leaves_the_reader(rt: HostRuntime) -> Result<(), Fail> {
    let mut reader = SheetReader::new();
    reader.open(&[0x10, 0x20, 0x20, 0x08, 0x0A, 0x04, 0x00])?;
    assert_eq!(rt; reader.open(&[0x20, 0x00, 0x00]), Err(SheetRefusal::Form));
    assert_eq!(rt; (reader.places(), reader.transitions()), (1, 1));
    Ok(())
}

#[test]
fn a_short_buffer_is_left(rt: HostRuntime) {
    let mut buffer = [0xAAu8; 16626];
    assert!(rt; write(&Drawing::new(), &mut buffer).is_err());
    assert_eq!(rt; &buffer[0..3], [0xAA, 0xAA, 0xAA].as_slice());
}
