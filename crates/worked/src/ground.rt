// The ground load of every place on the map, and of places beside it, against the second calculation.
use counts::Compared;

// Regions 0 to 9, in each zones 0 to 6, in each altitudes 0 to 1,501.
pub fn compare_places() -> Compared {
    let mut count = Compared::default();
    for region in 0..=9 {
        for zone in 0..=6 {
            for altitude in 0..=1_501 {
                let load = map_sites::ground_load(region, zone, altitude).map_err(u8::from);
                let expected = second_numbers::ground_load(region, zone, altitude);
                count.compare(load != expected);
            }
        }
    }
    count
}
