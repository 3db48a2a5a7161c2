// The load at a station of a roof under one arrangement, of accepted figures, worked from these.
#![tactic(auto)]

ghost use Rattle.std.specs.Prelude.{◌≡◌, ◌≤◌};
ghost use Rattle.roof_readings.specs.Reading.{value_of};
ghost use Rattle.standard.specs.Answers.{result_means, load_in};
ghost use Rattle.standard.specs.Arrangements.{load_at};
ghost use Rattle.standard.specs.Units.{largest_position, largest_load};

use figures::{AcceptedFigures, Refusal};
use segments::{Arrangement, Ramp};

// What a segment that starts at start reads at a station, 0 where it does not hold the station: 0 is never the greater.
#[tactic(auto, using(std::proofs::lemmas::Bool::Decides::nat_tests), unfolding(crate::specs::Reading::value_of, standard::specs::Stretch::holds))]
fn read(ramp: Ramp, start: u64, station: u64) -> u64
    requires { start ≤ largest_position }
    ensures { (result ≡ value_of ramp start station) × (result ≤ largest_load) }
{
    let extent = ramp.extent;
    if station < start {
        return 0;
    }
    if start + extent < station {
        return 0;
    }
    ramp.reading(station - start)
}

// The greatest reading over the segments that hold the station.
#[tactic(auto, unfolding(standard::specs::Arrangements::load_in_parts))]
fn greatest_reading(arrangement: &Arrangement, station: u64) -> u64
    ensures { let f = arrangement.now.figures.now in
        (result ≡ load_at f.national f.site f.roof arrangement.now.code station) × (result ≤ largest_load) }
{
    let mut load: u64 = 0;
    let mut start = 0;
    for i in 0..arrangement.count() {
        let ramp = arrangement.ramp(i);
        load = load.max(read(ramp, start, station));
        start += ramp.extent;
    }
    load
}

// The load at a station of accepted figures, where the roof has the arrangement and the station lies on it. For the crates above, which
// have the national figures in use.
#[tactic(auto, using(std::proofs::lemmas::Bool::Decides::nat_tests), unfolding(standard::specs::Answers::load_in, standard::specs::Answers::after_code, standard::specs::Answers::station_answer))]
pub fn load_in(figures: &AcceptedFigures, code: u8, station: u32) -> Result<u32, Refusal>
    ensures { result_means result ≡ load_in figures.now.national figures.now.site figures.now.roof code station }
{
    let arrangement = Arrangement::find(figures, code)?;
    let station = u64::from(station);
    if arrangement.end() < station {
        return Err(Refusal::PastTheEnd);
    }
    Ok(greatest_reading(&arrangement, station) as u32)
}
