// Drawings, and the edits that they refuse.
use drawing::Drawing;
use drawing::refusal::DrawingRefusal;
use net::bag::Bag;
use net::interface::Net;
use net::numbers::{Label, PlaceNo, TransitionNo};
use std::test::Fail;

#[test]
fn edits_are_seen(rt: HostRuntime) -> Result<(), Fail> {
    let mut drawing = Drawing::new();
    assert_eq!(rt; drawing.add_place(Label(7)), Ok(PlaceNo(0)));
    assert_eq!(rt; drawing.add_place(Label(8)), Ok(PlaceNo(1)));
    assert_eq!(rt; drawing.add_transition(Label(9)), Ok(TransitionNo(0)));
    drawing.set_weight(Bag::Effect, TransitionNo(0), PlaceNo(1), 3)?;
    assert_eq!(rt; (drawing.places(), drawing.transitions()), (2, 1));
    assert_eq!(rt; drawing.place_label(PlaceNo(1)), Some(Label(8)));
    assert_eq!(rt; drawing.place_label(PlaceNo(2)), None);
    assert_eq!(rt; drawing.transition_label(TransitionNo(0)), Some(Label(9)));
    assert_eq!(rt; drawing.effect(TransitionNo(0), PlaceNo(1)), 3);
    assert_eq!(rt; drawing.effect(TransitionNo(0), PlaceNo(0)), 0);
    assert_eq!(rt; drawing.cause(TransitionNo(0), PlaceNo(1)), 0);
    Ok(())
}

#[test]
fn edits_are_refused_in_order(rt: HostRuntime) -> Result<(), Fail> {
    let mut drawing = Drawing::new();
    assert_eq!(rt;
        drawing.add_place(Label(1024)),
        Err(DrawingRefusal::LabelTooHigh)
    );
    assert_eq!(rt; drawing.add_place(Label(1023)), Ok(PlaceNo(0)));
    assert_eq!(rt; drawing.add_place(Label(0)), Ok(PlaceNo(1)));
    assert_eq!(rt; drawing.add_transition(Label(0)), Ok(TransitionNo(0)));
    let no_transition = drawing.set_weight(Bag::Cause, TransitionNo(1), PlaceNo(0), 1);
    assert_eq!(rt; no_transition, Err(DrawingRefusal::NoSuchNumber));
    let no_place = drawing.set_weight(Bag::Cause, TransitionNo(0), PlaceNo(2), 1);
    assert_eq!(rt; no_place, Err(DrawingRefusal::NoSuchNumber));
    drawing.set_weight(Bag::Cause, TransitionNo(0), PlaceNo(0), 255)?;
    let too_large = drawing.set_weight(Bag::Cause, TransitionNo(0), PlaceNo(1), 1);
    assert_eq!(rt; too_large, Err(DrawingRefusal::BagTooLarge));
    assert_eq!(rt; drawing.cause(TransitionNo(0), PlaceNo(1)), 0);
    drawing.set_weight(Bag::Effect, TransitionNo(0), PlaceNo(1), 255)?;
    drawing.set_weight(Bag::Cause, TransitionNo(0), PlaceNo(0), 254)?;
    drawing.set_weight(Bag::Cause, TransitionNo(0), PlaceNo(1), 1)?;
    assert_eq!(rt; DrawingRefusal::BagTooLarge.number(), 14);
    Ok(())
}

#[test]
fn a_copy_is_the_same_net(rt: HostRuntime) -> Result<(), Fail> {
    let mut drawing = Drawing::new();
    let place = drawing.add_place(Label(1))?;
    let transition = drawing.add_transition(Label(5))?;
    drawing.set_weight(Bag::Cause, transition, place, 2)?;
    let copy = Drawing::copy_of(&drawing);
    assert_eq!(rt; (copy.places(), copy.transitions()), (1, 1));
    assert_eq!(rt; copy.place_label(place), Some(Label(1)));
    assert_eq!(rt; copy.transition_label(transition), Some(Label(5)));
    assert_eq!(rt;
        (
            copy.cause(transition, place),
            copy.effect(transition, place),
        ),
        (2, 0)
    );
    Ok(())
}
