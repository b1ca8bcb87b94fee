//! The error of a device.

/// A call of a device failed. It doesn't say why.
#[derive(Clone, Copy, Debug, PartialEq, Eq)]
pub struct DeviceFault;
