// A list of operations.
#![tactic(auto)]

ghost use Rattle.std.specs.Prelude.{◌≡◌, ◌≤◌, ◌<◌, ◌++◌, List, [], ◌∷◌, length};
ghost use Rattle.terms.specs.Limits.{largest_net};

use crate::Operation;
use terms::LARGEST_NET;

// The first `count` of the items; those past them are idle.
// Kept: an array with a count, and not the kit's `ArrayVec`, which is not `Copy`; these lists are.
#[derive(Clone, Copy)]
pub struct Operations {
    items: [Operation; LARGEST_NET],
    count: usize,
    ghost fits: { count ≤ length items },
}

impl Operations {
    ghost use Rattle.two_layer_cuts.specs.Rows.{operations_in};

    pub fn new() -> Operations
        ensures { operations_in result ≡ [] }
    {
        let idle = Operation::default();
        Operations {
            items: [idle; LARGEST_NET],
            count: 0,
        }
    }

    pub fn push(&mut self, operation: Operation)
        requires { length (operations_in self.old) < largest_net }
        ensures { operations_in self.new ≡ operations_in self.old ++ operation ∷ [] }
    {
        self.items[self.count] = operation;
        self.count += 1;
    }

    pub fn len(&self) -> usize
        ensures value { result ≡ length (operations_in self.now) }
        ensures few { result ≤ largest_net }
    {
        self.count
    }

    pub fn as_slice(&self) -> &[Operation]
        ensures { result.now ≡ operations_in self.now }
    {
        &self.items[..self.count]
    }
}
