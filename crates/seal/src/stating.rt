// What generic code does with a checker and with a sealer: asks about a kept seal, seals a statement.
ghost use Rattle.std.specs.Prelude.{◌≡◌};
ghost use Rattle.base.specs.Seals.{seal_bytes};
ghost use Rattle.base.specs.Statements.{statement_bytes};
ghost use Rattle.seal.specs.Meaning.{Stating};
ghost use Rattle.seal.specs.Tags.{SinglesPass, RowsPass};

use crate::sealers::{Checker, Sealer};
use base::refusals::Refusal;
use base::seals::{Seal, Vote};
use base::statements::Statement;

// Whether the checker recognises the vote's seal on the statement, in the name of the vote's member.
pub fn vote_stands<C: Checker>(checker: &C, statement: &Statement, vote: &Vote) -> bool
    ensures { result ≡ C.Checker.recognised checker.now vote.now.member.0 (statement_bytes statement.now) (seal_bytes vote.now.seal) }
{
    checker.recognises(
        vote.member,
        statement.to_bytes().as_slice(),
        vote.seal.as_slice(),
    )
}

// Seals the statement; refused, with nothing changed, exactly where no seal is left.
#[tactic(auto, using(crate::proofs::Sealings::unstated))]
pub fn seal_statement<S: Sealer>(sealer: &mut S, statement: &Statement) -> Result<Seal, Refusal>
    ensures { Stating (S.Sealer.meaning sealer.old) (statement_bytes statement.now) result (S.Sealer.meaning sealer.new) }
{
    let mut room = [0u8; 80];
    sealer.seal(statement.to_bytes().as_slice(), &mut room)?;
    Ok(Seal::new(&room[..S::seal_length()]).unwrap())
}

// What passes between members: a seal of either kind is recognised in its maker's name by each member with the keys.
#[tactic(auto, using(crate::specs::Made::singles_pass, crate::specs::Made::rows_pass))]
pub fn seals_pass()
    ensures singles { SinglesPass }
    ensures rows { RowsPass }
{}
