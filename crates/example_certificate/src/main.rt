//! Prints subject, issuer and validity of the certificate in DER in the file that the command line names, or on standard input.
#![tactic(auto)]

use anyhow::{Context, Result, bail};
use asn1_traits::FromDer;
use std::io::Read;
use std::{env, fs};
use x509_certs::X509Certificate;

fn main(rt: HostRuntime) -> Result<()> {
    let octets = read_input(&rt)?;
    print_certificate(&rt, octets.as_slice())
}

/// Prints what a certificate says of itself.
fn print_certificate(rt: &HostRuntime, octets: &[u8]) -> Result<()> {
    let (rest, certificate) = match X509Certificate::from_der(rt.alloc(), octets) {
        Ok(read) => read,
        Err(_) => bail!("these octets begin with no certificate"),
    };
    if !rest.is_empty() {
        bail!("{} octets follow the certificate", rest.len());
    }
    let validity = certificate.validity();
    println!(rt; "subject     {}", certificate.subject())?;
    println!(rt; "issuer      {}", certificate.issuer())?;
    println!(rt; "not before  {}", validity.not_before)?;
    println!(rt; "not after   {}", validity.not_after)?;
    Ok(())
}

/// The octets of the file that the first word names, or of standard input if there is no word.
fn read_input(rt: &HostRuntime) -> Result<Vec<u8>> {
    if let Some(name) = env::args(rt)?.nth(1) {
        return fs::read(rt, name.as_str()).context(format_args!("cannot read {name}"));
    }
    let mut octets = Vec::new(rt.alloc());
    rt.stdin().read_to_end(&mut octets)?;
    Ok(octets)
}
