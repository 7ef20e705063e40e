//! Each call that takes memory, while it is refused one of its allocations, and calls that take none, while they are refused all.
//!
//! The calls take `Global`, the C library's allocator, so no allocator of these tests can be handed to them.
//! `tests/programs/refused-growths` puts one below `Global`. It runs each test here again and again, and refuses the first allocation
//! between the test's marks, then the second one, and so on, until a run meets no refusal. A call that was refused memory is made once
//! more, which then succeeds. `rt test` refuses none.

mod chunks;
mod jobs;
mod marks;
mod regions;
mod scripts;
mod seats;
mod texts;
mod without;
