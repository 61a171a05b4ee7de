// The forms: the pattern of each, when it is legal, and the call that it writes. Each table here has its like in specs/Table.antt.
ghost use Rattle.std.specs.Prelude.{◌≡◌, ◌+◌, ◌≤◌, false, ◌++◌, length, pos};
ghost use Rattle.forms.specs.Patterns.{pieces, Suits, Fits, largest_count, most_fields};
ghost use Rattle.forms.specs.Table.{pattern_of, forms_of, form_of, kind_of, figures_of, values_of, call_of};

use super::calls::{Call, Figures, HouseForm, Kind, Layout};
use super::fields::Fields;
use super::pattern::Pattern;
use arrayvec::ArrayVec;

// How a line of a call is laid out.
#[derive(Clone, Copy, PartialEq, Eq)]
pub enum Form {
    House(Kind, Layout),
    Lay(Kind),
    Report,
}

// The forms that are legal before the house opens, and then in its kind.
// An arm for each kind, since a slice made of a variable is not static.
pub(crate) fn forms(opened: Option<Kind>) -> &'static [Form]
    ensures { result.now ≡ forms_of opened }
{
    match opened {
        None => &[
            Form::House(Kind::Grams, Layout::Flat),
            Form::House(Kind::Grams, Layout::Chain),
            Form::House(Kind::Trays, Layout::Flat),
            Form::House(Kind::Trays, Layout::Chain),
        ],
        Some(Kind::Grams) => &[Form::Lay(Kind::Grams), Form::Report],
        Some(Kind::Trays) => &[Form::Lay(Kind::Trays), Form::Report],
    }
}

// The count that a number is. The cast is proved to lose nothing.
fn count(number: i64) -> u32
    requires { Suits largest_count false number }
    ensures { pos result ≡ number }
{
    number as u32
}

impl Form {
    pub(crate) fn pattern(self) -> Pattern
        ensures { result.bytes.now ≡ pattern_of self }
    {
        let bytes: &'static [u8] = match self {
            Form::House(Kind::Grams, Layout::Flat) => b"(house # (kind g) (shelf flat # #))",
            Form::House(Kind::Grams, Layout::Chain) => b"(house # (kind g) (shelf chain # #))",
            Form::House(Kind::Trays, Layout::Flat) => b"(house # (kind tl) (shelf flat # #))",
            Form::House(Kind::Trays, Layout::Chain) => b"(house # (kind tl) (shelf chain # #))",
            Form::Lay(Kind::Grams) => b"(lay (min (g %)) (max (g %)) (now (g %)))",
            Form::Lay(Kind::Trays) => b"(lay (min (tl % #)) (max (tl % #)) (now (tl % #)))",
            Form::Report => b"(report #)",
        };
        Pattern { bytes }
    }

    // The call that the form writes with these numbers.
    pub(crate) fn call(self, numbers: &[i64]) -> Call
        requires { Fits (pieces (pattern_of self)) numbers.now }
        ensures { result ≡ call_of self numbers.now }
    {
        match (self, numbers) {
            (Form::House(kind, layout), &[house, bins, grants]) => Call::House(HouseForm {
                house: count(house),
                kind,
                layout,
                bins: count(bins),
                grants: count(grants),
            }),
            (Form::Lay(Kind::Grams), &[min, max, level]) => Call::Lay {
                min: Figures::Grams(min),
                max: Figures::Grams(max),
                now: Figures::Grams(level),
            },
            (Form::Lay(Kind::Trays), &[min, min_loose, max, max_loose, level, level_loose]) => {
                Call::Lay {
                    min: Figures::Trays {
                        trays: min,
                        loose: count(min_loose),
                    },
                    max: Figures::Trays {
                        trays: max,
                        loose: count(max_loose),
                    },
                    now: Figures::Trays {
                        trays: level,
                        loose: count(level_loose),
                    },
                }
            }
            (Form::Report, &[bin]) => Call::Report { bin: count(bin) },
            _ => unreachable!(),
        }
    }
}

impl Figures {
    // The kind of the amount.
    fn kind(self) -> Kind
        ensures { result ≡ kind_of self }
    {
        match self {
            Figures::Grams(_) => Kind::Grams,
            Figures::Trays { .. } => Kind::Trays,
        }
    }

    // Adds the numbers of the amount.
    fn push_to(self, numbers: &mut Fields)
        requires { length numbers.old.items + 2 ≤ most_fields }
        ensures numbers { numbers.new.items ≡ numbers.old.items ++ figures_of self }
        ensures len { length numbers.new.items ≤ length numbers.old.items + 2 }
    {
        match self {
            Figures::Grams(grams) => numbers.push(grams),
            Figures::Trays { trays, loose } => {
                numbers.push(trays);
                numbers.push(i64::from(loose));
            }
        }
    }
}

impl Call {
    // The form in which the call is written. That of a `lay` goes by its least amount.
    pub(crate) fn form(&self) -> Form
        ensures { result ≡ form_of self.now }
    {
        match self {
            Call::House(house) => Form::House(house.kind, house.layout),
            Call::Lay { min, .. } => Form::Lay(min.kind()),
            Call::Report { .. } => Form::Report,
        }
    }

    // The numbers of the call, in written order.
    pub(crate) fn numbers(&self) -> Fields
        ensures { result.items ≡ values_of self.now }
    {
        let mut numbers = ArrayVec::new();
        match self {
            Call::House(house) => {
                numbers.push(i64::from(house.house));
                numbers.push(i64::from(house.bins));
                numbers.push(i64::from(house.grants));
            }
            Call::Lay {
                min,
                max,
                now: level,
            } => {
                min.push_to(&mut numbers);
                max.push_to(&mut numbers);
                level.push_to(&mut numbers);
            }
            Call::Report { bin } => numbers.push(i64::from(*bin)),
        }
        numbers
    }
}
