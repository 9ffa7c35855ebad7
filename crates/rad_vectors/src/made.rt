// What is made of a repository.
use rad_base::Bytes;

/// The bundle of a repository, and the keyring that accepts its signatures.
#[derive(Debug, Drop)]
pub struct Made {
    /// The keyring file.
    pub keyring: Bytes,
    /// The bundle.
    pub bundle: Bytes,
}
