/// What the pipe of a descriptor is ready for, as poll(2) and FIONREAD of ioctl(2) tell it.
#[repr(C)]
#[derive(Drop)]
pub struct SagReady {
    pub bytes: u64,
    pub room: u64,
    pub has_reader: bool,
    pub has_writer: bool,
}
