ghost use Rattle.rm_states.specs.node.Laws.{NodeRowsAreOne, ReadyWereWaiting, RegisteredWait, LostWereRegistered, NoneIsAbsentAgain};

/// A state and an event have at most one row.
pub fn one_row_answers_each_pair()
    ensures { NodeRowsAreOne }
{}

/// A node is ready only by way of waiting, once what it runs was taken in.
pub fn only_a_waiting_node_becomes_ready()
    ensures { ReadyWereWaiting }
{}

/// A node that registers waits until what it runs is taken in, whatever was known of it before; nothing else
/// has it wait.
pub fn a_node_that_registers_waits()
    ensures { RegisteredWait }
{}

/// Only a node that is registered is lost, and its containers are ended then and at no other time.
pub fn only_a_registered_node_is_lost()
    ensures { LostWereRegistered }
{}

/// A node that has registered is never taken for one that hasn't.
pub fn no_node_is_absent_again()
    ensures { NoneIsAbsentAgain }
{}
