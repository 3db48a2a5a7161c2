// Which codes a roof has in a situation.
use figures::Shape;

// The code of the same shape without Cesl. Codes stay numbers here: document 01 gives each kind's rules by the numbers 1, 2 and 3.
pub fn persistent(code: u8) -> u8 {
    match code {
        11..=13 => code - 10,
        _ => code,
    }
}

// Exceptional falls: 11 in situations 1 and 3 (cases B1 and B3 of Annex A), 12 and 13 in 1 alone; codes without Cesl in all.
fn falls_allow(situation: u8, code: u8) -> bool {
    match code {
        11 => matches!(situation, 1 | 3),
        12 | 13 => situation == 1,
        _ => true,
    }
}

// Kind 9: 2 and 12 give way to the drifts in the valleys, of which there are one less than spans.
fn drifted_exists(count: u8, situation: u8, code: u8) -> bool {
    match code {
        1 | 11 | 12 => falls_allow(situation, code),
        2 => matches!(situation, 0 | 1),
        31..=45 => matches!(situation, 2 | 3) && code - 30 < count,
        _ => false,
    }
}

// Whether the roof has the code. At a projection there is 2 alone, and never a code of exceptional falls. A parapet and a small
// projection have "One code, 31, in situations 2 and 3".
pub fn exists(shape: Shape, situation: u8, code: u8) -> bool {
    let most = match shape {
        Shape::MultiSpan {
            count,
            drifts: true,
        } => return drifted_exists(count, situation, code),
        Shape::Projection(_) => return code == 2,
        Shape::Obstructed(_) => return code == 31 && matches!(situation, 2 | 3),
        Shape::Monopitch(_) => 1,
        Shape::Pitched { .. } => 3,
        Shape::MultiSpan { .. } | Shape::Cylindrical(_) | Shape::Abutting(_) => 2,
    };
    let base = persistent(code);
    falls_allow(situation, code) && 1 <= base && base <= most
}
