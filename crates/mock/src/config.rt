// The configuration that a device is made from.
pub use mock_base::config::MockDeviceConfig;
