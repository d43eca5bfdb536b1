// How far small nets fold, and in how many rounds. Places are labelled 1, transitions 5.
use drawing::Drawing;
use drawing::refusal::DrawingRefusal;
use fold::fold::fold;
use fold::folded::Folded;
use fold::grouping::Grouping;
use net::bag::Bag;
use net::interface::Net;
use net::numbers::{Label, PlaceNo, TransitionNo};
use std::test::Fail;

// Two places, and a transition for each pair of weights, of its cause or of its effect; the other bag is empty.
fn two_places(bag: Bag, rows: &[(u8, u8)]) -> Result<Drawing, DrawingRefusal> {
    let mut drawing = Drawing::new();
    drawing.add_place(Label(1))?;
    drawing.add_place(Label(1))?;
    for row in rows {
        let transition = drawing.add_transition(Label(5))?;
        drawing.set_weight(bag, transition, PlaceNo(0), row.0)?;
        drawing.set_weight(bag, transition, PlaceNo(1), row.1)?;
    }
    Ok(drawing)
}

// The folded numbers of places and of transitions, and the rounds.
fn folded(bag: Bag, rows: &[(u8, u8)]) -> Result<(u8, u8, u8), DrawingRefusal> {
    let mut groups = Grouping::new();
    Ok(fold(&two_places(bag, rows)?, &mut groups))
}

#[test]
fn all_ways_to_take_two_tokens(rt: HostRuntime) -> Result<(), Fail> {
    assert_eq!(rt; folded(Bag::Cause, &[(2, 0), (1, 1), (0, 2)])?, (1, 1, 0));
    Ok(())
}

#[test]
fn two_tokens_of_one_place_or_of_the_other(rt: HostRuntime) -> Result<(), Fail> {
    assert_eq!(rt; folded(Bag::Cause, &[(2, 0), (0, 2)])?, (2, 2, 2));
    Ok(())
}

#[test]
fn a_token_of_one_place_only(rt: HostRuntime) -> Result<(), Fail> {
    assert_eq!(rt; folded(Bag::Cause, &[(1, 0)])?, (2, 1, 1));
    Ok(())
}

#[test]
fn a_token_put_into_either_place(rt: HostRuntime) -> Result<(), Fail> {
    assert_eq!(rt; folded(Bag::Effect, &[(1, 0), (0, 1)])?, (1, 1, 0));
    Ok(())
}

#[test]
fn no_transition(rt: HostRuntime) -> Result<(), Fail> {
    assert_eq!(rt; folded(Bag::Cause, &[])?, (1, 0, 0));
    Ok(())
}

#[test]
fn the_folded_net_is_read(rt: HostRuntime) -> Result<(), Fail> {
    let net = two_places(Bag::Cause, &[(2, 0), (1, 1), (0, 2)])?;
    let mut groups = Grouping::new();
    fold(&net, &mut groups);
    assert_eq!(rt; groups.places.leader_of(PlaceNo(1)), Some(PlaceNo(0)));
    assert_eq!(rt; groups.places.leader_of(PlaceNo(2)), None);
    assert_eq!(rt;
        groups.transitions.leader_of(TransitionNo(2)),
        Some(TransitionNo(0))
    );
    let folded = Folded::over(&net, &groups);
    assert_eq!(rt; (folded.places(), folded.transitions()), (1, 1));
    assert_eq!(rt; folded.place_label(PlaceNo(0)), Some(Label(1)));
    assert_eq!(rt; folded.place_label(PlaceNo(1)), None);
    assert_eq!(rt; folded.transition_label(TransitionNo(0)), Some(Label(5)));
    assert_eq!(rt; folded.cause(TransitionNo(0), PlaceNo(0)), 2);
    assert_eq!(rt; folded.effect(TransitionNo(0), PlaceNo(0)), 0);
    Ok(())
}

// The grouping of two places does not fit the folded net, of one: that layer reads as the folded net.
#[test]
fn a_folded_net_over_a_folded_net(rt: HostRuntime) -> Result<(), Fail> {
    let net = two_places(Bag::Cause, &[(2, 0), (1, 1), (0, 2)])?;
    let mut groups = Grouping::new();
    fold(&net, &mut groups);
    let folded = Folded::over(&net, &groups);
    let twice = Folded::over(&folded, &groups);
    assert_eq!(rt; (twice.places(), twice.transitions()), (1, 1));
    assert_eq!(rt; twice.cause(TransitionNo(0), PlaceNo(0)), 2);
    let mut again = Grouping::new();
    assert_eq!(rt; fold(&folded, &mut again), (1, 1, 0));
    Ok(())
}
