//! A class as it was when its pool was opened.

use zms_units::{Class, Items};

/// A vdev of a class: its number in the pool, and the weight of each of its metaslabs, by index.
#[derive(Debug, Drop)]
pub struct ClassVdev {
    pub vdev: u8,
    pub weights: Items<u64>,
}

/// A class and its vdevs, by rising number, with the weights at the opening. Nothing is active then.
#[derive(Debug, Drop)]
pub struct ClassOrigin {
    pub class: Class,
    pub vdevs: Items<ClassVdev>,
}
