//! Bundles, anchors and vouchers, made item by item.

use crate::failure::Failure;
use crate::shapes::{Numbers, Shape};
use sha2::{Digest, Sha256};
use std::alloc::{AllocError, Global};
use x509_parser::FromDer;
use x509_parser::certificate::X509Certificate;

/// The three inputs of a run.
#[derive(Drop)]
pub(crate) struct Inputs {
    pub bundle: Vec<u8>,
    pub anchors: Vec<u8>,
    pub vouchers: Vec<u8>,
}

impl Inputs {
    /// Empty ones.
    pub(crate) fn new(alloc: Global) -> Inputs {
        Inputs {
            bundle: Vec::new(alloc),
            anchors: Vec::new(alloc),
            vouchers: Vec::new(alloc),
        }
    }

    /// A certificate more in the bundle, which a key vouches for, if any.
    pub(crate) fn push(
        &mut self,
        alloc: Global,
        shape: &Shape,
        numbers: &Numbers,
        voucher: Option<&[u8; 32]>,
    ) -> Result<(), AllocError> {
        let mut item = Vec::new(alloc);
        shape.write(&mut item, numbers)?;
        self.push_item(alloc, item.as_slice(), voucher)
    }

    /// An item more in the bundle, which a key vouches for, if any.
    pub(crate) fn push_item(
        &mut self,
        alloc: Global,
        item: &[u8],
        voucher: Option<&[u8; 32]>,
    ) -> Result<(), AllocError> {
        self.bundle.extend_from_slice(item)?;
        if let Some(key) = voucher {
            self.push_line(alloc, key, item)?;
        }
        Ok(())
    }

    fn push_line(&mut self, alloc: Global, key: &[u8; 32], item: &[u8]) -> Result<(), AllocError> {
        let key = hex::encode(alloc, *key)?;
        let item = hex::encode(alloc, Sha256::digest(item))?;
        self.vouchers.extend_from_slice(key.as_bytes())?;
        self.vouchers.push(b' ')?;
        self.vouchers.extend_from_slice(item.as_bytes())?;
        self.vouchers.push(b'\n')?;
        Ok(())
    }
}

/// The digest of the key of a certificate of the shape with these numbers.
pub(crate) fn key_digest(
    alloc: Global,
    shape: &Shape,
    numbers: &Numbers,
) -> Result<[u8; 32], Failure> {
    let mut item = Vec::new(alloc);
    shape.write(&mut item, numbers)?;
    match X509Certificate::from_der(alloc, item.as_slice()) {
        Ok((_, certificate)) => Ok(Sha256::digest(certificate.public_key().raw)),
        Err(_) => Err(Failure::Unread),
    }
}
