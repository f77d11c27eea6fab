//! What the rules are asked of a session.
ghost use Rattle.std.specs.Prelude.{◌≡◌, length, IfOk};
ghost use Rattle.fix_model.specs.declared.kit.Kit.{Kit as KitOf};
ghost use Rattle.fix_model.specs.States.{Fits};
ghost use Rattle.machine_core.specs.Answers.{state_of};

use desk_base::NoMemory;
use desk_words::SessionRow;
use fix_model::State;
use std::alloc::Global;

/// The state of a session: its typed texts, with the confirmed attributes covered and no others.
pub fn state_of(alloc: Global, session: &SessionRow) -> Result<State, NoMemory>
    requires { length session.now.typed ≡ length session.now.confirmed }
    ensures state { IfOk result (λ state. state ≡ state_of session.now) }
    ensures fits { IfOk result (λ state. (kit : KitOf) → length session.now.typed ≡ kit.width → Fits kit state) }
{
    let typed = session.typed.to_list(alloc)?;
    State::new(alloc, typed, session.confirmed.as_slice())
}
