// Kinds of amount that lines can write.
ghost use Rattle.std.specs.Prelude.{◌≡◌};
ghost use Rattle.amount.specs.Range.{made};
ghost use Rattle.forms.specs.declared.calls.Kind.{Kind};
ghost use Rattle.forms.specs.declared.calls.Kind.TheVariants as kind;
ghost use Rattle.house.specs.Kinds.{makes, writes};

use amount::grams::Grams;
use amount::trays::Trays;
use amount::{Amount, Counted};
use forms::calls::{Figures, Kind};
use refusal::Refusal;

// An amount that is made from outside numbers and written in them.
// By methods: between types of other crates only a wrapper type could have `TryFrom` and `From`.
// Each kind says its own, since their figures differ. No line of a house reads as figures of the other kind, so the
// place in their refusal is never told.
pub trait Written: Amount + Default {
    const KIND: Kind;

    ghost KIND: { Kind };

    // The amount that the figures write; figures of another kind write none.
    fn make(figures: Figures) -> Result<Self, Refusal>
        ensures { made Self.Amount.means result ≡ makes KIND figures };

    fn figures(self) -> Figures
        ensures { result ≡ writes KIND (Self.Amount.means self) };
}

impl Written for Grams {
    const KIND: Kind = Kind::Grams;

    ghost KIND = { kind.Grams };

    fn make(figures: Figures) -> Result<Grams, Refusal> {
        match figures {
            Figures::Grams(grams) => Grams::new(grams),
            Figures::Trays { trays: _, loose: _ } => Err(Refusal::Unreadable { place: 0 }),
        }
    }

    fn figures(self) -> Figures {
        Figures::Grams(self.number())
    }
}

impl Written for Trays {
    const KIND: Kind = Kind::Trays;

    ghost KIND = { kind.Trays };

    fn make(figures: Figures) -> Result<Trays, Refusal> {
        match figures {
            Figures::Grams(_) => Err(Refusal::Unreadable { place: 0 }),
            Figures::Trays { trays, loose } => Trays::new(trays, loose),
        }
    }

    fn figures(self) -> Figures {
        let (trays, loose) = self.split();
        Figures::Trays { trays, loose }
    }
}
