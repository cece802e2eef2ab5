ghost use Rattle.std.specs.Prelude.{◌≡◌, ◌≤◌, ◌≢◌, true};
ghost use Rattle.goals.specs.declared.token.Sign.TheVariants.{True, Open};
ghost use Rattle.goals.specs.Scopes.{has_room};
ghost use Rattle.goals.specs.Syntax.{Modal, Quantifier, timed, unwritten};
ghost use Rattle.goals.specs.Grammar.{modal_mark, quantifier_mark};
ghost use Rattle.goals.specs.Conditions.{prefix_nodes};
ghost use Rattle.goals.specs.Tokens.{mark};
ghost use Rattle.goals.specs.Vocabulary.{Vocabulary};
ghost use Rattle.goals.specs.Seen.{TokenAt, mark_of};
ghost use Rattle.goals.specs.Promises.{vocabulary, tokens, head_sign, VariableSays, IdSays, OperandSays, SecondSays, NameHere, TestSays, LowerSays, UpperSays, EndsSays, is_bound, CalledSays, BoundSays, Here, TimedSays, QuantifiedSays, PrefixSays, JointSays, EquationSays};

use crate::goal::{Atom, Ends, Node, Term, Variable};
use crate::goal_fault::GoalFault;
use crate::number::number_of;
use crate::predicate::find;
use crate::progress::{Bound, Joint, Opening, Prefix, Progress, Timed};
use crate::rest::Rest;
use crate::scope::Scope;
use crate::time::Span;
use crate::token::{Kind, Sign, Token};
use crate::words::{Called, Reader};

// No interval end is greater.
const MOST_HOURS: u16 = 10000;

fn stands_for(term: Term, variable: Variable) -> bool
    ensures { result ≡ is_bound variable term }
{
    term == Term::Bound(variable)
}

fn opening(prefix: Prefix, scope: Scope) -> Opening
    ensures { result ≡ record { prefix = prefix; scope = scope } }
{
    Opening { prefix, scope }
}

// The name of a quantifier's bound.
fn called<'a>(rest: Rest<'a>) -> Result<Called<'a>, GoalFault>
    ensures { (V : Vocabulary) → CalledSays V rest.entry result }
{
    let token = rest.next_token();
    let Kind::Name(name) = token.kind else {
        return Err(GoalFault::Follow(token.place));
    };
    Ok(Called { name, token })
}

impl Progress<'_> {
    // The lower end of an interval. It and the upper one read a number each, with one limit; a common promise would be longer than both.
    fn lower(&mut self) -> Result<u16, GoalFault>
        ensures { (V : Vocabulary) → LowerSays V self.old self.new result }
    {
        let token = self.rest.next_token();
        let Kind::Number(digits) = token.kind else {
            return Err(GoalFault::Follow(token.place));
        };
        let hours = number_of(digits);
        if hours > MOST_HOURS {
            return Err(GoalFault::Range(token.place));
        }
        self.pass(token);
        Ok(hours)
    }

    // The upper end of an interval, or none, behind a lower end.
    fn upper(&mut self, lower: u16) -> Result<Option<Span>, GoalFault>
        ensures { (V : Vocabulary) → UpperSays V lower self.old self.new result }
    {
        let token = self.rest.next_token();
        if token.is(Sign::Star) {
            self.pass(token);
            return Ok(None);
        }
        let Kind::Number(digits) = token.kind else {
            return Err(GoalFault::Follow(token.place));
        };
        let hours = number_of(digits);
        if hours > MOST_HOURS || hours < lower {
            return Err(GoalFault::Range(token.place));
        }
        self.pass(token);
        Ok(Some(Span { hours }))
    }

    // The ends of an interval, where they may stand.
    fn ends(&mut self) -> Result<Ends, GoalFault>
        ensures { (V : Vocabulary) → EndsSays V self.old self.new result }
    {
        let token = self.rest.next_token();
        if !token.is(Sign::OpenEnds) {
            return Ok(Ends {
                lower: Span { hours: 0 },
                upper: None,
            });
        }
        self.pass(token);
        let hours = self.lower()?;
        self.expect(Sign::Comma)?;
        let upper = self.upper(hours)?;
        self.expect(Sign::CloseEnds)?;
        Ok(Ends {
            lower: Span { hours },
            upper,
        })
    }
}

impl<'a> Progress<'a> {
    // What stands behind `F` or `G`, which count for so many nodes.
    fn timed(&mut self, nodes: usize, token: Token<'a>) -> Result<Timed, GoalFault>
        requires { (1 ≤ nodes) × (nodes ≤ 4) }
        ensures { (V : Vocabulary) (m : Modal) → prefix_nodes (timed m unwritten) ≡ nodes → Here self.old (mark (modal_mark m)) token.entry.place token.entry.rest → TimedSays V m self.old self.new result }
    {
        self.take(nodes, token)?;
        let truth = self.add(Node::True);
        let ends = self.ends()?;
        Ok(Timed { ends, truth })
    }

    // What joins a second formula to the first in a bracket; the token behind the first is at hand.
    pub fn joint(&mut self, first: usize, token: Token<'a>) -> Result<Joint, GoalFault>
        requires here { TokenAt self.old.rest token }
        requires no_and { head_sign (tokens self.old) ≢ 38 }
        requires no_or { head_sign (tokens self.old) ≢ 124 }
        requires no_close { head_sign (tokens self.old) ≢ 41 }
        ensures { (V : Vocabulary) → JointSays V first self.old self.new result }
    {
        if token.is(Sign::Until) {
            self.take(1, token)?;
            let ends = self.ends()?;
            return Ok(Joint::Until(ends, first));
        }
        if token.is(Sign::Implies) {
            self.take(2, token)?;
            return Ok(Joint::Or(self.add(Node::Not(first))));
        }
        Err(GoalFault::Follow(token.place))
    }
}

impl Reader<'_> {
    // The term of a variable's letter.
    pub fn variable(&self, letter: u8, place: usize) -> Result<Term, GoalFault>
        ensures { VariableSays self.now.scope.letters letter place result }
    {
        self.scope
            .letters
            .find(letter)
            .map(Term::Bound)
            .ok_or(GoalFault::Unknown(place))
    }

    // The term of an id's digits.
    pub fn id(&self, digits: &[u8], place: usize) -> Result<Term, GoalFault>
        ensures { IdSays self.now.words.ids digits.now place result }
    {
        let number = number_of(digits);
        if number >= self.words.ids {
            return Err(GoalFault::Range(place));
        }
        Ok(Term::Id(number))
    }

    // A term, where one is wanted.
    fn operand(&self, s: &mut Progress<'_>) -> Result<Term, GoalFault>
        ensures { OperandSays (vocabulary self.now.words) self.now.scope s.old s.new result }
    {
        let token = s.rest.next_token();
        let term = match token.kind {
            Kind::Variable(letter) => self.variable(letter, token.place)?,
            Kind::Number(digits) => self.id(digits, token.place)?,
            _ => return Err(GoalFault::Follow(token.place)),
        };
        s.pass(token);
        Ok(term)
    }

    // The second term of a test, behind the first.
    fn second(&self, s: &mut Progress<'_>) -> Result<Term, GoalFault>
        ensures { SecondSays (vocabulary self.now.words) self.now.scope s.old s.new result }
    {
        s.expect(Sign::Comma)?;
        self.operand(s)
    }

    // A test, from its name on, whose name counts for so many nodes.
    pub fn test<'t>(
        &self,
        called: Called<'t>,
        nodes: usize,
        s: &mut Progress<'t>,
    ) -> Result<Atom, GoalFault>
        requires here { NameHere s.old called }
        requires few { nodes ≤ 1 }
        ensures { TestSays (vocabulary self.now.words) self.now.scope nodes called.entry.token.place s.old s.new result }
    {
        let Some(sense) = find(self.words.predicates, called.name) else {
            return Err(GoalFault::Unknown(called.token.place));
        };
        s.take(nodes, called.token)?;
        let bare = Atom {
            predicate: sense.predicate,
            first: Term::Id(0),
            second: Term::Id(0),
        };
        if sense.places == 0 {
            return Ok(bare);
        }
        s.expect(Sign::Open)?;
        let first = self.operand(s)?;
        if sense.places == 1 {
            s.expect(Sign::Close)?;
            return Ok(Atom { first, ..bare });
        }
        let second = self.second(s)?;
        s.expect(Sign::Close)?;
        Ok(Atom {
            first,
            second,
            ..bare
        })
    }

    // A quantifier's variable and its bound.
    fn bound(&self, s: &mut Progress<'_>) -> Result<Bound, GoalFault>
        requires { has_room self.now.scope.letters ≡ true }
        ensures { BoundSays (vocabulary self.now.words) self.now.scope s.old s.new result }
    {
        let token = s.rest.next_token();
        let Kind::Variable(letter) = token.kind else {
            return Err(GoalFault::Follow(token.place));
        };
        if self.scope.letters.find(letter).is_some() {
            return Err(GoalFault::Unknown(token.place));
        }
        s.pass(token);
        s.expect(Sign::Colon)?;
        let named = called(s.rest)?;
        let inner = Reader {
            scope: self.scope.binding(letter),
            ..*self
        };
        let atom = inner.test(named, 0, s)?;
        let variable = self.scope.letters.next();
        if stands_for(atom.first, variable) || stands_for(atom.second, variable) {
            return Ok(Bound { letter, atom });
        }
        Err(GoalFault::Unknown(named.token.place))
    }

    // What stands behind `A` or `E`.
    fn quantified<'t>(&self, token: Token<'t>, s: &mut Progress<'t>) -> Result<Bound, GoalFault>
        ensures { (x : Quantifier) → Here s.old (mark (quantifier_mark x)) token.entry.place token.entry.rest → QuantifiedSays (vocabulary self.now.words) self.now.scope x s.old s.new result }
    {
        if self.scope.letters.are_full() {
            return Err(GoalFault::Limit(token.place));
        }
        s.take(1, token)?;
        self.bound(s)
    }

    // What stands before an item, whose first sign is at hand.
    pub fn prefix<'t>(
        &self,
        sign: Sign,
        token: Token<'t>,
        s: &mut Progress<'t>,
    ) -> Result<Opening, GoalFault>
        requires here { Here s.old (mark (mark_of sign)) token.place token.rest }
        requires no_truth { sign ≢ True }
        requires no_bracket { sign ≢ Open }
        ensures { PrefixSays (vocabulary self.now.words) self.now.scope s.old s.new result }
    {
        let scope = self.scope;
        match sign {
            Sign::Not => {
                s.take(1, token)?;
                Ok(opening(Prefix::Not, scope))
            }
            Sign::Next => {
                s.take(1, token)?;
                Ok(opening(Prefix::Next, scope))
            }
            Sign::Eventually => {
                let t = s.timed(2, token)?;
                Ok(opening(Prefix::Eventually(t.ends, t.truth), scope))
            }
            Sign::Always => {
                let t = s.timed(4, token)?;
                Ok(opening(Prefix::Always(t.ends, t.truth), scope))
            }
            Sign::ForAll => {
                let b = self.quantified(token, s)?;
                let prefix = Prefix::ForAll(scope.letters.next(), b.atom);
                Ok(opening(prefix, scope.binding(b.letter)))
            }
            Sign::Exists => {
                let b = self.quantified(token, s)?;
                let prefix = Prefix::Exists(scope.letters.next(), b.atom);
                Ok(opening(prefix, scope.binding(b.letter)))
            }
            _ => Err(GoalFault::Follow(token.place)),
        }
    }

    // The right side of an equation, behind its left side.
    pub fn equation(&self, left: Term, s: &mut Progress<'_>) -> Result<usize, GoalFault>
        ensures { EquationSays (vocabulary self.now.words) self.now.scope left s.old s.new result }
    {
        let token = s.rest.next_token();
        if !token.is(Sign::Equal) {
            return Err(GoalFault::Follow(token.place));
        }
        s.take(1, token)?;
        let right = self.operand(s)?;
        Ok(s.add(Node::Equal(left, right)))
    }
}
