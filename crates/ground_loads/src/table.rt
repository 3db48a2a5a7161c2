// Table C.1 of EN 1991-1-3: a row of coefficients for each climatic region.
ghost use Rattle.std.specs.Prelude.{◌≡◌, ◌≤◌};
ghost use Rattle.figures.specs.Bounds.{Within};
ghost use Rattle.ground_loads.specs.Map.{RowIn, row_of};

// How the load rises with the altitude A: the zone's load times 1 + (A/divisor)², or the zone's load and 1,000 A/divisor.
#[derive(Clone, Copy, Debug, PartialEq, Eq)]
pub enum Form {
    Square,
    Linear,
}

// A row: zone Z has factor × Z + plus − minus, in N/m²; the altitude is taken over the divisor, in the row's form.
#[derive(Clone, Copy, Debug, PartialEq, Eq)]
pub struct Row {
    pub factor: u64,
    pub plus: u64,
    pub minus: u64,
    pub divisor: u64,
    pub form: Form,
}

// By a region's number: the requirements name a table of eight rows.
const ROWS: [Row; 8] = [
    // Alpine Region
    Row {
        factor: 642,
        plus: 9,
        minus: 0,
        divisor: 728,
        form: Form::Square,
    },
    // Central East
    Row {
        factor: 264,
        plus: 0,
        minus: 2,
        divisor: 256,
        form: Form::Square,
    },
    // Greece
    Row {
        factor: 420,
        plus: 0,
        minus: 30,
        divisor: 917,
        form: Form::Square,
    },
    // Iberian Peninsula
    Row {
        factor: 190,
        plus: 0,
        minus: 95,
        divisor: 524,
        form: Form::Square,
    },
    // Mediterranean Region
    Row {
        factor: 498,
        plus: 0,
        minus: 209,
        divisor: 452,
        form: Form::Square,
    },
    // Central West
    Row {
        factor: 164,
        plus: 0,
        minus: 82,
        divisor: 966,
        form: Form::Linear,
    },
    // Sweden, Finland
    Row {
        factor: 790,
        plus: 375,
        minus: 0,
        divisor: 336,
        form: Form::Linear,
    },
    // UK, Republic of Ireland
    Row {
        factor: 140,
        plus: 0,
        minus: 100,
        divisor: 501,
        form: Form::Linear,
    },
];

// The row of a region.
#[tactic(auto, unfolding(crate::specs::Map::row_of, crate::specs::Map::rows), using(crate::proofs::Rows::row_in))]
pub fn row_of(region: u8) -> Row
    requires { Within 1 8 region }
    ensures { (result ≡ row_of region) × RowIn result }
{
    ROWS[usize::from(region) - 1]
}
