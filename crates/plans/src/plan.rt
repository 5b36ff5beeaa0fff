// Bytes that are a plan for an arena.
ghost use Rattle.std.specs.Prelude.{◌≡◌, ◌+◌, ◌<◌, length, MatchResult};
ghost use Rattle.game.specs.Players.{byte_of, Decodes};
ghost use Rattle.plans.specs.Bytes.{byte, choice_byte, plan_of, Headed, ChoiceFits, WellFormed};
ghost use Rattle.plans.specs.Choices.{choice_of};
ghost use Rattle.plans.specs.Findings.{Tells};
ghost use Rattle.plans.specs.Refusals.{Refuses};

use super::choice::Choice;
use super::fault::PlanFault;
use arena::Arena;
use game::{NoPlayer, Player};

// A plan as its bytes give it, with the arena that it is for.
#[derive(Drop)]
pub struct FormedPlan<'a, A: Arena> {
    pub arena: &'a A,
    pub bytes: &'a [u8],
    pub player: Player,
    ghost whole: { length bytes.now ≡ (A.game arena.now).size + 2 },
    ghost owner: { byte_of player ≡ byte bytes.now 0 },
    ghost formed: { ∥ WellFormed (A.game arena.now) bytes.now ∥₁ },
}

impl<'a, A: Arena> FormedPlan<'a, A> {
    // The plan that the bytes are for the arena, or the first fault that they have.
    pub fn read(arena: &'a A, bytes: &'a [u8]) -> Result<FormedPlan<'a, A>, PlanFault>
        ensures { MatchResult result (λ plan. WellFormed (A.game arena.now) bytes.now × (plan.arena.now ≡ arena.now) × (plan.bytes.now ≡ bytes.now)) (Refuses (A.game arena.now) bytes.now) }
    {
        let size = arena.size();
        if bytes.len() != size + 2 {
            return Err(PlanFault::Length);
        }
        let player = owner(bytes)?;
        if usize::from(bytes[1]) != size {
            return Err(PlanFault::Size);
        }
        match (0..size).find(|v| !choice_fits(arena, player, bytes, *v)) {
            Some(v) => Err(PlanFault::Choice(v)),
            None => Ok(FormedPlan {
                arena,
                bytes,
                player,
            }),
        }
    }

    // What the plan says of position v.
    pub(crate) fn choice(&self, v: usize) -> Choice
        requires { v < (A.game self.now.arena.now).size }
        ensures { result ≡ choice_of (choice_byte self.now.bytes.now v) }
    {
        Choice::from(self.bytes[v + 2])
    }

    // Whether the plan claims a position; none that the arena does not have.
    pub(crate) fn claims(&self, v: usize) -> bool
        ensures { result ≡ (plan_of (A.game self.now.arena.now).size self.now.bytes.now).claims v }
    {
        v < self.arena.size() && self.choice(v) != Choice::Unclaimed
    }
}

// Whose plan it is, by the first byte.
fn owner(bytes: &[u8]) -> Result<Player, NoPlayer>
    requires { 0 < length bytes.now }
    ensures { Decodes (byte bytes.now 0) result }
{
    Player::try_from(bytes[0])
}

// Whether the byte of a position fits: the number of an arc where the plan's player moves, a mere claim where the other does.
fn choice_fits<A: Arena>(arena: &A, player: Player, bytes: &[u8], v: usize) -> bool
    requires owner { byte_of player ≡ byte bytes.now 0 }
    requires headed { Headed (A.game arena.now).size bytes.now }
    requires there { v < (A.game arena.now).size }
    ensures { Tells result (ChoiceFits (A.game arena.now) bytes.now v) }
{
    let own = arena.mover(v) == Some(player);
    let count = arena.arc_count(v).unwrap();
    match Choice::from(bytes[v + 2]) {
        Choice::Unclaimed => true,
        Choice::Claimed => !own,
        Choice::Arc(number) => own && usize::from(number) < count,
    }
}
