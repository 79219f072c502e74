//! Laws of the definitions.

ghost use Rattle.std.specs.Prelude.{List, ℕ};
ghost use Rattle.ix_message.specs.Device.{device};
ghost use Rattle.ix_device_read.specs.Finishing.{FinishingIsReading};
ghost use Rattle.ix_device_read.specs.Reading.{FileReads};

/// What `take_device` does struct by struct is the record that the numbers of a device stand for,
/// or its first number that is out of its list, where its texts are names and it has fewer than
/// 2^32 - 1 structs.
pub fn finishing_is_reading()
    ensures { FinishingIsReading }
{}

/// What `read_device` says of the segments of an opened frame is the reading of the file itself.
pub fn files_read_as_their_segments()
    ensures { (bytes : List ℕ) → FileReads device bytes }
{}
