// A station's content, and what is refused of it.
#![tactic(auto)]

pub mod judge;

// What a station is opened with, and its state. Stations are numbered from 1. Any bytes may stand in it: each call judges them.
#[repr(C)]
#[derive(Clone, Copy)]
pub struct Station {
    pub n: u8,
    pub t: u8,
    pub upper: u8,
    pub sender: u8,
    pub own: u8,
    pub round: u8,
    pub value: u8,
    pub z: u8,
    pub grade: u8,
    pub garbled: u8,
}
