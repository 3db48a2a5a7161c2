// Roofs drawn from their other end: how the library turns them, and the loads that it reads there, against the second calculation and
// against the loads of the roofs themselves.
use crate::given::Given;
use crate::readings::stations;
use crate::refusals::ExpectedRefusal;
use counts::Compared;
use figures::Roof;
use second::{LoadCase, TENTHS, roof_end};
use turned_roofs::{turned, turned_code};

// The turned roof is the second calculation's, none where a roof of this kind stays as it is; turned again it is the roof itself.
fn compare_roof(roof: &Roof, count: &mut Compared) -> Option<Roof> {
    let expected = second::turned(roof);
    let other = turned(*roof);
    count.compare(other != expected.unwrap_or(*roof) || turned(other) != *roof);
    expected
}

// A roof in a code that it has. The turned roof has the load that the second calculation has of its own turned roof, and the load of the
// roof itself at the same place, which lies as far from the other end.
pub fn compare_turned(given: &Given<'_>, expected: &LoadCase<'_>, count: &mut Compared) {
    let Some(expected_roof) = compare_roof(given.roof, count) else {
        return;
    };
    let shape = given.roof.shape;
    let expected_code = second::turned_code(shape, expected.code);
    let expected_turned = LoadCase::new(
        expected.national,
        given.site,
        &expected_roof,
        expected_code,
    );
    let roof = turned(*given.roof);
    let other = Given {
        roof: &roof,
        ..*given
    };
    let code = turned_code(shape, expected.code);
    count.compare(code != expected_code);
    let end = roof_end(given.roof);
    let differs = |station: u32| {
        let opposite = end.saturating_sub(station);
        let load = other.load(code, opposite);
        load != given.load(expected.code, station)
            || load != Ok(expected_turned.load_read(opposite, TENTHS))
    };
    for i in 0..expected.segment_count() {
        for station in stations(&expected.segment(i), count.answers) {
            count.compare(differs(station));
        }
    }
}

// A roof that every call refuses: turned round it is refused by the same number.
pub fn compare_turned_refusal(given: &Given<'_>, refusal: ExpectedRefusal, count: &mut Compared) {
    if compare_roof(given.roof, count).is_some() {
        let roof = turned(*given.roof);
        let given = Given {
            roof: &roof,
            ..*given
        };
        refusal.compare_every_call(&given, count);
    }
}
