//! The plain book over a kit of its own.
ghost use Rattle.std.specs.Prelude.{◌≡◌};
ghost use Rattle.fix_model.specs.Valid.{IsValid};

use crate::book::{Book, Hit};
use crate::kit::Kit;
use crate::state::State;
use desk_base::Steps;
use std::marker::Model;

/// A valid kit as a book. Each look goes through the rows of the rule's master.
#[derive(Debug, Drop)]
pub struct ListBook {
    inside: Kit,
}

impl Model for ListBook {
    ghost use Rattle.fix_model.specs.declared.kit.Kit.{Kit};
    ghost use Rattle.fix_model.specs.Valid.{IsValid};

    ghost Value = { Kit };

    ghost view = { λ b. b.inside };

    ghost invariant = { λ b. IsValid b.inside };
}

impl ListBook {
    /// The book over this kit.
    pub fn new(kit: Kit) -> ListBook
        requires { IsValid kit }
        ensures { result ≡ kit }
    {
        ListBook { inside: kit }
    }
}

impl<L> Book<L> for ListBook {
    ghost kit = { λ b. b };

    fn inside(&self) -> &Kit {
        &self.inside
    }

    fn find(&self, rule: u16, state: &State, counts: &mut Steps<L>) -> Option<Hit> {
        self.inside.lend().find(rule, state, counts)
    }

    fn agrees(&self, rule: u16, state: &State, counts: &mut Steps<L>) -> bool {
        self.inside.lend().agrees(rule, state, counts)
    }
}
