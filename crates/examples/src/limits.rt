// A net at every limit, and what lies just past them.
use drawing::Drawing;
use drawing::refusal::DrawingRefusal;
use net::bag::Bag;
use net::interface::Net;
use net::numbers::{Label, PlaceNo, TransitionNo};
use reader::refusal::SheetRefusal;
use reader::sheet::SheetReader;
use std::test::Fail;
use writer::write::write;

// 64 places and 128 transitions with the highest label, each cause and effect of size 255: 192 in the first place and 1 in each other.
fn full() -> Result<Drawing, DrawingRefusal> {
    let mut drawing = Drawing::new();
    for _ in 0..64 {
        drawing.add_place(Label(1023))?;
    }
    for t in 0..128 {
        drawing.add_transition(Label(1023))?;
        fill(&mut drawing, TransitionNo(t), Bag::Cause)?;
        fill(&mut drawing, TransitionNo(t), Bag::Effect)?;
    }
    Ok(drawing)
}

fn fill(drawing: &mut Drawing, transition: TransitionNo, bag: Bag) -> Result<(), DrawingRefusal> {
    drawing.set_weight(bag, transition, PlaceNo(0), 192)?;
    for p in 1..64 {
        drawing.set_weight(bag, transition, PlaceNo(p), 1)?;
    }
    Ok(())
}

#[test]
fn a_full_drawing_takes_no_more(rt: HostRuntime) -> Result<(), Fail> {
    let mut drawing = full()?;
    assert_eq!(rt; (drawing.places(), drawing.transitions()), (64, 128));
    assert_eq!(rt; drawing.add_place(Label(1024)), Err(DrawingRefusal::Full));
    assert_eq!(rt;
        drawing.add_transition(Label(1024)),
        Err(DrawingRefusal::Full)
    );
    let past = drawing.set_weight(Bag::Effect, TransitionNo(127), PlaceNo(63), 2);
    assert_eq!(rt; past, Err(DrawingRefusal::BagTooLarge));
    Ok(())
}

#[test]
fn full_places_do_not_stop_a_transition(rt: HostRuntime) -> Result<(), Fail> {
    let mut drawing = Drawing::new();
    for _ in 0..64 {
        drawing.add_place(Label(0))?;
    }
    assert_eq!(rt; drawing.add_place(Label(0)), Err(DrawingRefusal::Full));
    assert_eq!(rt; drawing.add_transition(Label(0)), Ok(TransitionNo(0)));
    Ok(())
}

#[test]
fn the_longest_sheet_is_read(rt: HostRuntime) -> Result<(), Fail> {
    let mut buffer = [0u8; 16627];
    assert_eq!(rt; write(&full()?, &mut buffer), Ok(16627));
    let mut reader = SheetReader::new();
    reader.open(&buffer)?;
    assert_eq!(rt; (reader.places(), reader.transitions()), (64, 128));
    assert_eq!(rt; reader.place_label(PlaceNo(63)), Some(Label(1023)));
    assert_eq!(rt;
        reader.transition_label(TransitionNo(127)),
        Some(Label(1023))
    );
    assert_eq!(rt; reader.cause(TransitionNo(127), PlaceNo(0)), 192);
    assert_eq!(rt; reader.effect(TransitionNo(127), PlaceNo(63)), 1);
    Ok(())
}

// The last byte holds three bits of the last weight, 1 until it is changed, and five fill bits.
#[test]
fn a_size_of_256_is_refused(rt: HostRuntime) -> Result<(), Fail> {
    let mut buffer = [0u8; 16627];
    assert_eq!(rt; write(&full()?, &mut buffer), Ok(16627));
    assert_eq!(rt; buffer[16626], 0x20);
    buffer[16626] = 0x40;
    assert_eq!(rt;
        SheetReader::new().open(&buffer),
        Err(SheetRefusal::BagTooLarge)
    );
    buffer[16626] = 0x21;
    assert_eq!(rt; SheetReader::new().open(&buffer), Err(SheetRefusal::Fill));
    Ok(())
}
