//! Ledgers that fail while frames are selected. Which lines are taken, by words, moments and masks, by links,
//! and with their neighbours, are cases of the program (`tests/cut.py`).

// further: mod choices;
mod devices;
// further: mod finding;
// further: mod link_lists;
// further: mod neighbours;
