ghost use Rattle.std.specs.Prelude.{◌≡◌, IfOk};
ghost use Rattle.stn_net.specs.Matrix.Tightest.{IsExact};
ghost use Rattle.stn_lift.specs.PlanSource.{base_bounds, events_of};

use crate::matrices::opening_matrix;
use std::alloc::Allocator;
use std::marker::Model;
use std::rc::Rc;
use stn_lift::Base;
use stn_matrix::Matrix;
use stn_time::Memory;

/// The matrix of a plan's own bounds, which is made once for all replicas of the plan and then only read.
#[derive(Drop)]
pub struct PlanMatrix<A: Allocator> {
    matrix: Rc<Matrix<A>, A>,
}

impl<A: Allocator> Model for PlanMatrix<A> {
    ghost use Rattle.std.specs.Rc.{rc_value};
    ghost use Rattle.stn_net.specs.Matrix.Table.{Table};

    ghost Value = { Table };

    ghost view = { λ o. rc_value o.matrix };
}

impl<A: Allocator + Copy> PlanMatrix<A> {
    /// The matrix of the plan's own bounds.
    pub fn new(alloc: A, base: &Base<A>) -> Result<PlanMatrix<A>, Memory>
        ensures exact { IfOk result (λ made. IsExact (base_bounds base.now) made) }
        ensures events { IfOk result (λ made. made.events ≡ events_of base.now) }
    {
        let opening = opening_matrix(alloc, base)?;
        let matrix = Rc::new(alloc, opening)?;
        Ok(PlanMatrix { matrix })
    }

    /// The same matrix for one more replica.
    pub fn shared(&self) -> Result<PlanMatrix<A>, Memory>
        ensures { IfOk result (λ made. made ≡ self.now) }
    {
        let matrix = self.matrix.clone()?;
        Ok(PlanMatrix { matrix })
    }

    /// The matrix.
    pub fn matrix(&self) -> &Matrix<A>
        ensures { result.now ≡ self.now }
    {
        &self.matrix
    }
}
