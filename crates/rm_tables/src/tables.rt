use crate::container_set::ContainerSet;
use crate::events::{MainEvent, SchedEvent};
use crate::nodes::Nodes;
use crate::rows::Rows;
use rm_book::{Asks, Book};
use rm_tree::Tree;
use rm_types::{AppId, Op, Queue, Settings};
use std::alloc::Global;

/// What the manager holds between its moves: what is recorded, the operations that await, and the life that
/// stands. Nothing of the tree is copied: it is moved in when a life begins, and each kept operation is applied.
#[derive(Drop)]
pub struct Tables {
    pub alloc: Global,
    pub settings: Settings,
    /// What is recorded by the kept operations.
    pub tree: Tree,
    /// The operations that were issued and are not kept.
    pub awaiting: Queue<Op>,
    /// A life stands.
    pub alive: bool,
    pub epoch: u32,
    pub stamp: u64,
    /// The life's Epoch is kept.
    pub is_open: bool,
    /// The first awaiting operation is with the store.
    pub handed: bool,
    /// The store refused an operation.
    pub blown: bool,
    /// How many ids the life gave.
    pub given: u32,
    /// How many messages it served.
    pub served: u32,
    /// What the life knows of applications.
    pub rows: Rows,
    /// How many known applications have no kept end.
    pub going: usize,
    /// The applications with a kept end of which no Remove is issued, in the order of their ends.
    pub ended: Queue<AppId>,
    /// The life's clock: milliseconds since it opened.
    pub clock: u64,
    /// The store held an application without an end when the life began, so that nothing is granted at first.
    pub waits: bool,
    /// What attempts ask for.
    pub asks: Asks,
    /// The living containers.
    pub book: Book,
    /// Where the cluster recovers ended containers: those of former epochs that left the book in this life.
    pub departed: ContainerSet,
    /// Where it does: those that masters released in this life while they were missing.
    pub pending: ContainerSet,
    /// The nodes that registered in this life.
    pub nodes: Nodes,
    pub main: Queue<MainEvent>,
    pub sched: Queue<SchedEvent>,
}
