ghost use Rattle.std.specs.Prelude.{◌<◌};
ghost use Rattle.goals.specs.Reading.{wants};
ghost use Rattle.goals.specs.Vocabulary.{vocabulary_of};
ghost use Rattle.goals.specs.GoalClaims.{GoalSays, Exactly, OnlyReading, RightPlace};
ghost use Rattle.goals.specs.Promises.{vocabulary, ItemSays, ClauseSays, FormulaSays, bracketed};

use crate::goal::{Goal, GoalRoom, Node};
use crate::goal_fault::GoalFault;
use crate::predicate::Predicate;
use crate::progress::Progress;
use crate::rest::Rest;
use crate::scope::{Letters, Scope};
use crate::token::{Kind, Sign};
use crate::words::{Called, Reader, Words};

// No goal text is longer.
const MOST_BYTES: usize = 2048;

// No bracket opens inside so many others.
const MOST_DEPTH: usize = 16;

impl Reader<'_> {
    // Clauses joined by `|`, from the left.
    #[cycle(bracket_clause_formula_item)]
    fn formula(&self, s: &mut Progress<'_>) -> Result<usize, GoalFault>
        ensures { FormulaSays (vocabulary self.now.words) self.now.scope s.old s.new result }
    {
        let mut left = self.clause(s)?;
        loop {
            let token = s.rest.next_token();
            if !token.is(Sign::Or) {
                return Ok(left);
            }
            s.take(1, token)?;
            let right = self.clause(s)?;
            left = s.add(Node::Or(left, right));
        }
    }

    // Items joined by `&`, from the left. One loop for both was tried: it takes its part as a closure inside the recursion, and the check
    // asked for a measure of it and left the whole cycle without a proof.
    #[cycle(bracket_clause_formula_item)]
    fn clause(&self, s: &mut Progress<'_>) -> Result<usize, GoalFault>
        ensures { ClauseSays (vocabulary self.now.words) self.now.scope s.old s.new result }
    {
        let mut left = self.item(s)?;
        loop {
            let token = s.rest.next_token();
            if !token.is(Sign::And) {
                return Ok(left);
            }
            s.take(1, token)?;
            let right = self.item(s)?;
            left = s.add(Node::And(left, right));
        }
    }

    #[cycle(bracket_clause_formula_item)]
    fn item(&self, s: &mut Progress<'_>) -> Result<usize, GoalFault>
        ensures { ItemSays (vocabulary self.now.words) self.now.scope wants s.old s.new result }
    {
        let token = s.rest.next_token();
        match token.kind {
            Kind::Name(name) => {
                let atom = self.test(Called { name, token }, 1, s)?;
                Ok(s.add(Node::Test(atom)))
            }
            Kind::Variable(letter) => {
                let left = self.variable(letter, token.place)?;
                s.pass(token);
                self.equation(left, s)
            }
            Kind::Number(digits) => {
                let left = self.id(digits, token.place)?;
                s.pass(token);
                self.equation(left, s)
            }
            Kind::Sign(sign) => match sign {
                Sign::True => {
                    s.take(1, token)?;
                    Ok(s.add(Node::True))
                }
                Sign::Open if self.scope.depth >= MOST_DEPTH => Err(GoalFault::Limit(token.place)),
                Sign::Open => {
                    s.pass(token);
                    self.bracket(s)
                }
                _ => {
                    let opening = self.prefix(sign, token, s)?;
                    let inner = Reader {
                        scope: opening.scope,
                        ..*self
                    };
                    let part = inner.item(s)?;
                    Ok(s.close(opening.prefix, part))
                }
            },
            _ => Err(GoalFault::Follow(token.place)),
        }
    }

    // What stands in a bracket, behind its opening.
    #[cycle(bracket_clause_formula_item)]
    fn bracket(&self, s: &mut Progress<'_>) -> Result<usize, GoalFault>
        requires { self.now.scope.depth < 16 }
        ensures { ItemSays (vocabulary self.now.words) self.now.scope bracketed s.old s.new result }
    {
        let inner = Reader {
            scope: self.scope.deeper(),
            ..*self
        };
        let first = inner.formula(s)?;
        let token = s.rest.next_token();
        if token.is(Sign::Close) {
            s.pass(token);
            return Ok(first);
        }
        let joint = s.joint(first, token)?;
        let second = inner.formula(s)?;
        s.expect(Sign::Close)?;
        Ok(s.add(joint.node(second)))
    }
}

// Reads a goal text against the number of ids and the predicates of a catalogue.
pub fn read_goal<'a>(
    text: &'a [u8],
    ids: u16,
    predicates: &'a [Predicate],
    room: GoalRoom,
) -> Result<Goal, GoalFault>
    ensures value { GoalSays (vocabulary_of ids predicates.now) text.now result }
    ensures exactly { Exactly }
    ensures one { OnlyReading }
    ensures placing { RightPlace }
{
    if text.len() > MOST_BYTES {
        return Err(GoalFault::TooLong);
    }
    let reader = Reader {
        words: Words { ids, predicates },
        scope: Scope {
            letters: Letters::Free,
            depth: 0,
        },
    };
    let GoalRoom { nodes } = room;
    let mut s = Progress {
        rest: Rest {
            bytes: text,
            place: 0,
        },
        count: 0,
        nodes,
    };
    let root = reader.formula(&mut s)?;
    let token = s.rest.next_token();
    let Kind::End = token.kind else {
        return Err(GoalFault::Follow(token.place));
    };
    let Progress { nodes, .. } = s;
    Ok(Goal { nodes, root })
}
