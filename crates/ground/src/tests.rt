// Distances that are known, and circles round them.
use crate::Ground;
use crate::circle::is_inside;
use crate::flat::Flat;
use crate::scale::EastScale;
use fields::position::Position;
use octets::fault::Fault;
use std::test::Fail;

fn at(latitude: i32, longitude: i32) -> Position {
    Position {
        latitude,
        longitude,
    }
}

fn scale(value: u16) -> Result<EastScale, Fail> {
    EastScale::try_from(value).map_err(|_| Fail::new("no scale"))
}

#[test]
fn a_way_north_ends_on_the_edge_of_a_circle(rt: HostRuntime) -> Result<(), Fail> {
    let flat = Flat {
        scale: scale(1_113)?,
    };
    assert_eq!(rt; flat.distance(at(100_000, 7), at(0, 7)), 11_130);
    assert_eq!(rt; flat.distance(at(0, 0), at(9, 9)), 2);
    assert!(rt; is_inside(&flat, at(100_000, 7), at(0, 7), 1_113));
    assert!(rt; !is_inside(&flat, at(100_000, 7), at(0, 7), 1_112));
    Ok(())
}

#[test]
fn a_scale_above_the_equators_is_none(rt: HostRuntime) -> Result<(), Fail> {
    match EastScale::try_from(1_114) {
        Ok(_) => Err(Fail::new("1,114 is a scale")),
        Err(fault) => {
            assert_eq!(rt; fault.number(), 14);
            Ok(())
        },
    }
}
