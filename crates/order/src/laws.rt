// What the layers above rest on: the laws of sets, in any total order. Each function is a theorem.
ghost use Rattle.order.specs.SetLaws.{SetLaws};

use crate::total::TotalOrder;

pub fn set_laws<T: TotalOrder>()
    ensures { SetLaws T.compare }
{}
