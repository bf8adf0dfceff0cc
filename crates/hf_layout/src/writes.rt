//! Laws on what is written into a file, as functions whose contracts they are.
ghost use Rattle.hf_layout.specs.Laws.{FillsBlock, FillsFront, StandsBehind, SetsLeft, SetsRight, FrontStays};

/// A record of exactly a block's size is written over a block that was lent out, or over a record.
pub fn record_fills_a_block()
    ensures { FillsBlock }
{}

/// A record is written over the front of a larger block; what is left over is lent out.
pub fn record_fills_a_front()
    ensures { FillsFront }
{}

/// A record is written where the blocks end.
pub fn record_stands_behind()
    ensures { StandsBehind }
{}

/// A chain is set by writing its bytes alone.
pub fn chains_are_set()
    ensures left { SetsLeft }
    ensures right { SetsRight }
{}

/// What is written from the first block on leaves the bytes before it.
pub fn front_stays()
    ensures { FrontStays }
{}
