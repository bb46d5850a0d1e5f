// A replica with its settings, its sealer and its rulebook.
ghost use Rattle.std.specs.Prelude.{◌≡◌, nat_lt};
ghost use Rattle.base.specs.Pools.{members};
ghost use Rattle.base.specs.Refusals.{passing};
ghost use Rattle.base.specs.declared.refusals.Refusal.TheVariants.{OffChain, NotAdmitted};
ghost use Rattle.holding.specs.Views.{box_of};
ghost use Rattle.judging.specs.Views.{sent_of};
ghost use Rattle.message.specs.Wholes.{Whole};
ghost use Rattle.protocol.specs.Judging.{bad_seal, checks_of, on_chain};
ghost use Rattle.protocol.specs.Plans.{unless};
ghost use Rattle.protocol.specs.State.{Box};
ghost use Rattle.protocol.specs.Turns.{leads};

use crate::settings::Settings;
use crate::states::State;
use base::refusals::Refusal;
use base::slips::Slip;
use judging::contents::on_chain;
use judging::sealing::first_bad_seal;
use message::parsing::Format;
use message::shapes::Message;
use rules::rulebooks::Rulebook;
use seal::sealers::Sealer;

#[derive(Drop)]
pub struct Core<S, R> {
    pub settings: Settings,
    pub sealer: S,
    pub rules: R,
    pub state: State,
}

// What stands for a replica of the definitions.
pub trait Boxed {
    // the replica, as its calls see it
    ghost boxed: { Self → Box };
}

impl<S: Sealer, R: Rulebook> Boxed for Core<S, R> {
    ghost boxed = { box_of S.Sealer.meaning R.Rulebook.admitted R.Rulebook.ranked };
}

impl<S: Sealer, R: Rulebook> Core<S, R> {
    // Whether the sealer's number is one of the pool's.
    pub fn is_member(&self) -> bool
        ensures { let b = ⟦<Self as Boxed>⟧.boxed self.now in result ≡ nat_lt b.sealer.number (members b.settings.pool) }
    {
        self.settings.pool.has(self.sealer.member())
    }

    // Whether it leads its height and round.
    pub fn leads(&self) -> bool
        ensures { result ≡ leads (⟦<Self as Boxed>⟧.boxed self.now) }
    {
        let state = &self.state;
        self.sealer.member() == self.settings.pool.leader(state.height, state.round)
    }

    // How messages of its pool read.
    pub fn format(&self) -> Format
        ensures { result ≡ record { pool = self.now.settings.pool; seal_len = S.Checker.seal_long } }
    {
        Format {
            pool: self.settings.pool,
            seal_len: S::seal_length(),
        }
    }

    // Whether a slip stands on the last page and the rulebook admits it.
    pub fn judge_slip(&self, slip: &Slip) -> Result<(), Refusal>
        ensures { let b = ⟦<Self as Boxed>⟧.boxed self.now in result ≡ unless (on_chain b.view.last slip.now) OffChain (unless (b.rules.admits b.view.height slip.now) NotAdmitted (Ok tt)) }
    {
        if !on_chain(&self.state.last, slip) {
            return Err(Refusal::OffChain);
        }
        if !self.rules.admits(self.state.height, slip) {
            return Err(Refusal::NotAdmitted);
        }
        Ok(())
    }

    // Whether all seals of a message are recognised: refused by the first that is not.
    pub fn judge_seals(&self, m: &Message<'_>) -> Result<(), Refusal>
        ensures { Whole m.now → result ≡ passing (bad_seal (⟦<Self as Boxed>⟧.boxed self.now).sealer.knows (checks_of (sent_of m.now).head (sent_of m.now).content)) }
    {
        first_bad_seal(&self.sealer, m)
    }
}
