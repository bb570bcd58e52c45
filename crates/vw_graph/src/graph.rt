ghost use Rattle.std.specs.Prelude.{◌≡◌, ◌+◌};
ghost use Rattle.vw_state.specs.Context.{context_of};
ghost use Rattle.vw_state.specs.Post.{edges_with};
ghost use Rattle.vw_graph.specs.search.Graphs.{IsGraph};
ghost use Rattle.vw_graph.specs.search.Jumps.{pairs_of};
ghost use Rattle.std.proofs.Common.{rules};

use crate::jumps::slot;
use std::alloc::Global;
use std::marker::Model;
use std::sync::ledger::Ledger;
use vw_bits::OutOfMemory;
use vw_domain::State;
use vw_lattice::Lattice;
use vw_layout::{Function, Module};
use vw_solver::{Edges, Equations, Steps};
use vw_state::{JumpTable, Site, edges_are_post, post_with};

/// The equations of a round over a function of a module, which contracts see as the function in its module and the
/// pairs of points of its jumps through registers: its points are 0 to its size, and each counts one step.
#[derive(Drop)]
pub(crate) struct Graph<'a> {
    loaded: &'a Module,
    declared: &'a Function,
    site: Site<'a>,
    code: &'a [u8],
    points: u32,
    jumps: &'a [Option<JumpTable>],
}

impl<'a> Model for Graph<'a> {
    ghost use Rattle.std.specs.Prelude.{ℕ, List};
    ghost use Rattle.vw_state.specs.Context.{Context, context_of};
    ghost use Rattle.vw_graph.specs.search.Graphs.{IsGraph};
    ghost use Rattle.vw_graph.specs.search.Jumps.{pairs_of};

    ghost Value = { Context × List (ℕ × ℕ) };

    ghost view = { λ graph. (
      context_of graph.loaded.now graph.declared.now,
      pairs_of (context_of graph.loaded.now graph.declared.now) graph.jumps.now,
    ) };

    ghost invariant = { λ graph.
        IsGraph (context_of graph.loaded.now graph.declared.now) graph.site graph.code.now graph.points };
}

impl<'a> Graph<'a> {
    /// The equations of a function with this code and site, where jumps through registers go to where these tables lead.
    pub(crate) fn of_function(
        loaded: &'a Module,
        declared: &'a Function,
        site: Site<'a>,
        code: &'a [u8],
        points: u32,
        jumps: &'a [Option<JumpTable>],
    ) -> Graph<'a>
        requires { IsGraph (context_of loaded.now declared.now) site code.now points }
        ensures { result ≡ (
          context_of loaded.now declared.now,
          pairs_of (context_of loaded.now declared.now) jumps.now,
        ) }
    {
        Graph {
            loaded,
            declared,
            site,
            code,
            points,
            jumps,
        }
    }
}

impl<'a> Equations for Graph<'a> {
    type State = State;

    ghost points = { λ g. g.0.size + 1 };

    ghost bounds = { λ g. g.0.bounds };

    ghost weight = { λ g at. 1 };

    ghost edges = { λ g at state. edges_with g.0 g.1 at state };

    fn points(&self) -> u32 {
        self.points
    }

    fn bounds(&self) -> &<Self::State as Lattice>::Bounds {
        self.site.bounds
    }

    fn weight(&self, _at: u32) -> u64 {
        1
    }

    fn post<L: Ledger>(
        &self,
        alloc: Global,
        at: u32,
        state: &State,
        out: &mut Edges<State>,
        steps: &mut Steps<L>,
    ) -> Result<(), OutOfMemory> {
        edges_are_post();
        steps.tick();
        let table = slot(self.jumps, at);
        post_with(alloc, &self.site, self.code, at, table, state, out)
    }

    ghost weighs = { Prim.search rules };
}
