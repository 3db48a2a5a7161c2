// Kind 5: a cylindrical roof.
ghost use Rattle.std.specs.Prelude.{◌≤◌, ◌<◌};

use figures::Arch;
use second_numbers::{Ratio, Segment, Wide, least, quarters};

// The loaded width ls: the span if 12 × rise² ≤ span², else the least width with (8 × rise × width)² ≥ 3(span² + 4 × rise²)².
fn loaded_width(arch: Arch) -> u32 {
    let Arch { rise, span } = arch;
    let rise_square = rise.saturating_mul(rise);
    let span_square = span.saturating_mul(span);
    if rise_square.saturating_mul(12) <= span_square {
        return span;
    }
    let edge = span_square.saturating_add(rise_square.saturating_mul(4));
    let reached = Wide::from(edge) * edge * 3;
    least(span, |width| {
        let reach = rise.saturating_mul(8).saturating_mul(width);
        reached <= Wide::from(reach) * reach
    })
}

// The part of the span that is loaded: its width in mm, and what is left bare at each end, half of the span less that width, in
// quarter millimetres.
#[derive(Clone, Copy)]
struct LoadedPart {
    width: u32,
    edge: u32,
}

impl LoadedPart {
    fn of(arch: Arch) -> LoadedPart {
        let width = loaded_width(arch);
        LoadedPart {
            width,
            edge: arch.span.saturating_sub(width).saturating_mul(2),
        }
    }

    // How many bare segments lie before the loaded ones, and as many behind them.
    fn bare_ends(self) -> usize
        ensures { result ≤ 1 }
    {
        usize::from(self.edge != 0)
    }
}

// On ls: one even stretch, or the four legs of two triangles.
fn loaded_count(code: u8) -> usize
    ensures { (1 ≤ result) × (result ≤ 4) }
{
    if code == 1 { 1 } else { 4 }
}

pub fn arch_count(arch: Arch, code: u8) -> usize
    ensures { (1 ≤ result) × (result ≤ 6) }
{
    loaded_count(code) + 2 * LoadedPart::of(arch).bare_ends()
}

// μ3: 0.2 + 10 × rise/span, at most its upper value.
fn on_arch(arch: Arch, upper: Ratio) -> Ratio {
    let twice = arch.span.saturating_mul(2);
    let num = twice.saturating_add(arch.rise.saturating_mul(100));
    Ratio::new(num, arch.span.saturating_mul(10)).min(upper)
}

// Code 2: the legs of two triangles, each leg a quarter of ls, with the peaks 0.5μ3 and μ3. A quarter of ls has as many quarter
// millimetres as ls has millimetres.
fn leg(loaded: LoadedPart, peak: Ratio, k: u32) -> Segment {
    let start = loaded.edge.saturating_add(loaded.width.saturating_mul(k));
    let end = start.saturating_add(loaded.width);
    match k {
        0 => Segment::uncut(start, end, Ratio::NOTHING, peak.halved()),
        1 => Segment::uncut(start, end, peak.halved(), Ratio::NOTHING),
        2 => Segment::uncut(start, end, Ratio::NOTHING, peak),
        _ => Segment::uncut(start, end, peak, Ratio::NOTHING),
    }
}

// The segment at an index, with the upper value of μ3: outside ls the load is 0, in code 1 it is even at 0.8 on ls.
pub fn on_cylinder(arch: Arch, upper: Ratio, code: u8, i: usize) -> Segment
    requires { i < 32 }
{
    let loaded = LoadedPart::of(arch);
    let end = quarters(arch.span);
    let far_edge = end.saturating_sub(loaded.edge);
    let first = loaded.bare_ends();
    if i < first {
        Segment::even(0, loaded.edge, Ratio::NOTHING)
    } else if first + loaded_count(code) <= i {
        Segment::even(far_edge, end, Ratio::NOTHING)
    } else if code == 1 {
        Segment::even(loaded.edge, far_edge, Ratio::EIGHT_TENTHS)
    } else {
        leg(loaded, on_arch(arch, upper), (i - first) as u32)
    }
}
