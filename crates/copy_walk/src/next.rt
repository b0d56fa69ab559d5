use ms_model::Start;
use zms_units::MsId;

/// What an allocation does next for one copy of a block.
#[derive(Clone, Copy, Debug, PartialEq, Eq)]
pub enum Next {
    /// It picks a metaslab of a vdev.
    Pick { vdev: u8, start: Start },
    /// It looks at a metaslab for space.
    Look { id: MsId },
    /// No metaslab of the class has space.
    Done,
}
