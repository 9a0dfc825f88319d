//! The desk at which workers claim, rounds filtered, and the pool of workers.

mod desk;
// further: mod generated;
// further: mod pool;
// further: mod rounds;
