//! All marks are walked after each act of a region's life.

mod act_by_act;
mod judge;
mod judging;
mod watcher;
