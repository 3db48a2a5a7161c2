// The loads: μ × Ce × Ct × sk, times Cesl in the accidental codes, μ × sk in the drifts of
// Annex B. A break load is worked in parts of a N/m², a load at a station is whole.
use figures::Site;
use second_numbers::{Ratio, Segment, Wide};

const MILLION: u32 = 1_000_000;

// How many parts a N/m² has. By A4 "sums and ramps work in tenths".
pub const TENTHS: u32 = 10;

// S is worked in whole N/m², and so was every load before A4.
pub const WHOLE: u32 = 1;

// The ground load and the factor on μ × sk in millionths.
#[derive(Clone, Copy, Debug)]
pub struct Ground {
    pub factor: u32,
    pub sk: u32,
}

impl Ground {
    // Ce × Ct below code 11, Ce × Ct × Cesl in 11 to 13; in the drifts of Annex B, codes above 30, none of the three plays a
    // part.
    pub fn of(site: Site, code: u8) -> Ground {
        let usual = u32::from(site.ce).saturating_mul(u32::from(site.ct));
        let factor = match code {
            0..=10 => usual.saturating_mul(100),
            11..=30 => usual.saturating_mul(u32::from(site.cesl)),
            _ => MILLION,
        };
        Ground {
            factor,
            sk: site.sk,
        }
    }

    // The load at a coefficient in parts of a N/m², rounded up to a part.
    fn rounded(&self, ratio: Ratio, parts: u32) -> u32 {
        let load = Wide::from(ratio.num) * self.factor * self.sk * parts;
        load.div_ceil(Wide::from(ratio.den) * MILLION)
    }

    // The load that a segment reads at a station on it, between the break loads of the uncut line: these are in parts of a N/m²,
    // the wind's and the slide's each rounded up and added, and the load alone is rounded up to a whole N/m².
    pub fn load_on(&self, segment: &Segment, station: u32, parts: u32) -> u32 {
        let before = segment.along(station);
        let after = segment.length.saturating_sub(before);
        let slide = self.rounded(segment.slide, parts);
        let from = self.rounded(segment.from, parts).saturating_add(slide);
        let to = self.rounded(segment.to, parts);
        let line = Wide::from(from) * after + Wide::from(to) * before;
        line.div_ceil(Wide::from(segment.length) * parts)
    }

    // Whether two loads are so many thousandths of a N/m² and a 375th of the load at μ = 1 apart, or more:
    // factor × sk / (375 × 1,000,000) + thousandths/1,000 ≤ difference, multiplied out.
    pub fn moves_beyond(&self, difference: u32, thousandths: u32) -> bool {
        let den = Wide::from(MILLION) * 375;
        let part = Wide::from(self.factor) * self.sk * 1_000;
        part + den * thousandths <= den * 1_000 * difference
    }

    // Whether a load is so many thousandths of a N/m² or more above the exact load of the segment at a station on it:
    // exact + thousandths/1,000 ≤ load, with exact = num × factor × sk / (den × 1,000,000), multiplied out.
    pub fn above_exact(
        &self,
        segment: &Segment,
        station: u32,
        load: u32,
        thousandths: u32,
    ) -> bool {
        let den = exact_den(segment);
        let exact = exact_num(segment, station) * self.factor * self.sk;
        exact + den * 1_000 * thousandths <= den * MILLION * load
    }
}

// The exact coefficient at a station on the segment, over the product of the three denominators and the length.
fn exact_num(segment: &Segment, station: u32) -> Wide {
    let before = segment.along(station);
    let after = segment.length.saturating_sub(before);
    let Segment {
        from,
        slide,
        to,
        ..
    } = *segment;
    let wind = Wide::from(from.num) * slide.den * to.den * after;
    let slid = Wide::from(slide.num) * from.den * to.den * after;
    let end = Wide::from(to.num) * from.den * slide.den * before;
    wind + slid + end
}

fn exact_den(segment: &Segment) -> Wide {
    Wide::from(segment.from.den) * segment.slide.den * segment.to.den * segment.length
}
