ghost use Rattle.std.specs.Prelude.{◌≡◌, ◌+◌, ◌<◌, ◌≤◌, vec_len};
ghost use Rattle.goals.specs.Seen.{mark_of};
ghost use Rattle.goals.specs.Promises.{Passed, TakeSays, Added, Closed, closing_size, joint_node, SignSays};

use crate::goal::{MOST_NODES, Node};
use crate::goal_fault::GoalFault;
use crate::progress::{Joint, Prefix, Progress};
use crate::token::{Sign, Token};

impl<'a> Progress<'a> {
    // Passes a token that counts for so many nodes.
    pub fn take(&mut self, nodes: usize, token: Token<'a>) -> Result<(), GoalFault>
        requires { nodes ≤ 4 }
        ensures { TakeSays self.old self.new nodes token.entry.place token.entry.rest result }
    {
        if self.count + nodes > MOST_NODES {
            return Err(GoalFault::Limit(token.place));
        }
        self.count += nodes;
        self.rest = token.rest;
        Ok(())
    }

    // Passes a token that counts for none.
    pub fn pass(&mut self, token: Token<'a>)
        ensures { Passed self.old self.new 0 token.entry.rest }
    {
        self.rest = token.rest;
    }

    // Passes a sign that has to stand here.
    pub fn expect(&mut self, sign: Sign) -> Result<(), GoalFault>
        ensures { SignSays self.old self.new (mark_of sign) result }
    {
        let token = self.rest.next_token();
        if !token.is(sign) {
            return Err(GoalFault::Follow(token.place));
        }
        self.pass(token);
        Ok(())
    }

    // Adds a node that was counted.
    pub fn add(&mut self, node: Node) -> usize
        requires { vec_len self.old.nodes < self.old.count }
        ensures { Added self.old self.new node result }
    {
        let number = self.nodes.len();
        self.nodes.push_reserved(node);
        number
    }

    // Adds the nodes of a prefix behind its item.
    pub fn close(&mut self, prefix: Prefix, part: usize) -> usize
        requires { vec_len self.old.nodes + closing_size prefix ≤ self.old.count }
        ensures { Closed self.old self.new prefix part result }
    {
        match prefix {
            Prefix::Not => self.add(Node::Not(part)),
            Prefix::Next => self.add(Node::Next(part)),
            Prefix::Eventually(ends, truth) => self.add(Node::Until(ends, truth, part)),
            Prefix::Always(ends, truth) => {
                let never = self.add(Node::Not(part));
                let until = self.add(Node::Until(ends, truth, never));
                self.add(Node::Not(until))
            }
            Prefix::ForAll(variable, bound) => self.add(Node::ForAll(variable, bound, part)),
            Prefix::Exists(variable, bound) => self.add(Node::Exists(variable, bound, part)),
        }
    }
}

impl Joint {
    // The node of a bracket's two formulas.
    pub fn node(self, second: usize) -> Node
        ensures { result ≡ joint_node self second }
    {
        match self {
            Joint::Until(ends, first) => Node::Until(ends, first, second),
            Joint::Or(first) => Node::Or(first, second),
        }
    }
}
