/// Which sectors U2 and B-W may write.
#[derive(Clone, Copy, Debug, PartialEq, Eq, Drop)]
pub enum Access {
    /// Those that are nobody's and aren't spared: a sound disk stays sound.
    Guarded,
    /// Any: nothing is known of the disk.
    Raw,
}
