// The calls that a line can make.

// The kind of amounts that a house keeps.
#[derive(Clone, Copy, Debug, PartialEq, Eq)]
pub enum Kind {
    Grams,
    Trays,
}

// How the shelf is laid out.
#[derive(Clone, Copy, Debug, PartialEq, Eq)]
pub enum Layout {
    Flat,
    Chain,
}

// An amount as it is written.
#[derive(Clone, Copy, Debug, PartialEq, Eq)]
pub enum Figures {
    Grams(i64),
    Trays { trays: i64, loose: u32 },
}

// What opens a house.
#[derive(Clone, Copy, Debug, PartialEq, Eq)]
pub struct HouseForm {
    pub house: u32,
    pub kind: Kind,
    pub layout: Layout,
    pub bins: u32,
    pub grants: u32,
}

// What a line asks of the house.
#[derive(Clone, Copy, Debug, PartialEq, Eq)]
pub enum Call {
    House(HouseForm),
    Lay {
        min: Figures,
        max: Figures,
        now: Figures,
    },
    Report {
        bin: u32,
    },
}
