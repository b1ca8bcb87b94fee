//! Accessors for one kind of extension (RFC 5280, 4.2.1).

ghost use Rattle.std.specs.Prelude.{◌≡◌};
ghost use Rattle.x509_ext.specs.Values.{id_ce};
ghost use Rattle.x509_certs.specs.Getters.{
  usage_in,
  purposes_in,
  policy_constraints_in,
  inhibit_in,
  mappings_in,
  alternative_in,
  name_constraints_in,
  value_of,
  constraints_of,
  says_authority,
  told_view,
};

use crate::certificate::X509Certificate;
use crate::tbs::TbsCertificate;
use asn1_oid::Oid;
use x509_core::X509Error;
use x509_ext::types::{
    BasicConstraints, ExtendedKeyUsage, InhibitAnyPolicy, KeyUsage, NameConstraints,
    PolicyConstraints, PolicyMappings, SubjectAlternativeName,
};
use x509_ext::{BasicExtension, ParsedExtension};

/// id-ce-keyUsage, 2.5.29.15.
const KEY_USAGE: &[u8] = b"\x55\x1d\x0f";

/// id-ce-subjectAltName, 2.5.29.17.
const SUBJECT_ALTERNATIVE_NAME: &[u8] = b"\x55\x1d\x11";

/// id-ce-basicConstraints, 2.5.29.19.
const BASIC_CONSTRAINTS: &[u8] = b"\x55\x1d\x13";

/// id-ce-nameConstraints, 2.5.29.30.
const NAME_CONSTRAINTS: &[u8] = b"\x55\x1d\x1e";

/// id-ce-policyMappings, 2.5.29.33.
const POLICY_MAPPINGS: &[u8] = b"\x55\x1d\x21";

/// id-ce-policyConstraints, 2.5.29.36.
const POLICY_CONSTRAINTS: &[u8] = b"\x55\x1d\x24";

/// id-ce-extKeyUsage, 2.5.29.37.
const EXTENDED_KEY_USAGE: &[u8] = b"\x55\x1d\x25";

/// id-ce-inhibitAnyPolicy, 2.5.29.54.
const INHIBIT_ANY_POLICY: &[u8] = b"\x55\x1d\x36";

impl<'a> TbsCertificate<'a> {
    /// The basic constraints and the extension's critical flag (RFC 5280, 4.2.1.9). `None` if the
    /// certificate has no such extension, or its value wasn't parsed as one.
    ///
    /// # Errors
    ///
    /// `DuplicateExtensions` if the extension occurs more than once.
    pub fn basic_constraints(&self) -> Result<Option<BasicExtension<&BasicConstraints>>, X509Error>
        ensures { told_view result ≡ constraints_of self.now.extensions.items }
    {
        let Some(extension) = self.get_extension_unique(&Oid::new(BASIC_CONSTRAINTS))? else {
            return Ok(None);
        };
        match extension.parsed_extension() {
            ParsedExtension::BasicConstraints(constraints) => Ok(Some(BasicExtension::new(
                extension.critical,
                constraints,
            ))),
            _ => Ok(None),
        }
    }

    /// The key usage and the extension's critical flag (RFC 5280, 4.2.1.3). `None` if the
    /// certificate has no such extension.
    ///
    /// # Errors
    ///
    /// `DuplicateExtensions` if the extension occurs more than once; `InvalidExtensions` if its
    /// value wasn't parsed as one.
    pub fn key_usage(&self) -> Result<Option<BasicExtension<&KeyUsage>>, X509Error>
        ensures { told_view result ≡ value_of (id_ce 15) usage_in self.now.extensions.items }
    {
        let Some(extension) = self.get_extension_unique(&Oid::new(KEY_USAGE))? else {
            return Ok(None);
        };
        match extension.parsed_extension() {
            ParsedExtension::KeyUsage(usage) => Ok(Some(BasicExtension::new(
                extension.critical,
                usage,
            ))),
            _ => Err(X509Error::InvalidExtensions),
        }
    }

    /// The subject's alternative names and the extension's critical flag (RFC 5280, 4.2.1.6).
    /// `None` if the certificate has no such extension.
    ///
    /// # Errors
    ///
    /// `DuplicateExtensions` if the extension occurs more than once; `InvalidExtensions` if its
    /// value wasn't parsed as one.
    pub fn subject_alternative_name(
        &self,
    ) -> Result<Option<BasicExtension<&SubjectAlternativeName<'a>>>, X509Error>
        ensures { told_view result ≡ value_of (id_ce 17) alternative_in self.now.extensions.items }
    {
        let Some(extension) = self.get_extension_unique(&Oid::new(SUBJECT_ALTERNATIVE_NAME))? else {
            return Ok(None);
        };
        match extension.parsed_extension() {
            ParsedExtension::SubjectAlternativeName(names) => Ok(Some(BasicExtension::new(
                extension.critical,
                names,
            ))),
            _ => Err(X509Error::InvalidExtensions),
        }
    }

    /// The name constraints and the extension's critical flag (RFC 5280, 4.2.1.10). `None` if the
    /// certificate has no such extension.
    ///
    /// # Errors
    ///
    /// `DuplicateExtensions` if the extension occurs more than once; `InvalidExtensions` if its
    /// value wasn't parsed as one.
    pub fn name_constraints(
        &self,
    ) -> Result<Option<BasicExtension<&NameConstraints<'a>>>, X509Error>
        ensures { told_view result ≡ value_of (id_ce 30) name_constraints_in self.now.extensions.items }
    {
        let Some(extension) = self.get_extension_unique(&Oid::new(NAME_CONSTRAINTS))? else {
            return Ok(None);
        };
        match extension.parsed_extension() {
            ParsedExtension::NameConstraints(constraints) => Ok(Some(BasicExtension::new(
                extension.critical,
                constraints,
            ))),
            _ => Err(X509Error::InvalidExtensions),
        }
    }

    /// The policy mappings and the extension's critical flag (RFC 5280, 4.2.1.5). `None` if the
    /// certificate has no such extension.
    ///
    /// # Errors
    ///
    /// `DuplicateExtensions` if the extension occurs more than once; `InvalidExtensions` if its
    /// value wasn't parsed as one.
    pub fn policy_mappings(&self) -> Result<Option<BasicExtension<&PolicyMappings<'a>>>, X509Error>
        ensures { told_view result ≡ value_of (id_ce 33) mappings_in self.now.extensions.items }
    {
        let Some(extension) = self.get_extension_unique(&Oid::new(POLICY_MAPPINGS))? else {
            return Ok(None);
        };
        match extension.parsed_extension() {
            ParsedExtension::PolicyMappings(mappings) => Ok(Some(BasicExtension::new(
                extension.critical,
                mappings,
            ))),
            _ => Err(X509Error::InvalidExtensions),
        }
    }

    /// The policy constraints and the extension's critical flag (RFC 5280, 4.2.1.11). `None` if the
    /// certificate has no such extension.
    ///
    /// # Errors
    ///
    /// `DuplicateExtensions` if the extension occurs more than once; `InvalidExtensions` if its
    /// value wasn't parsed as one.
    pub fn policy_constraints(
        &self,
    ) -> Result<Option<BasicExtension<&PolicyConstraints>>, X509Error>
        ensures { told_view result ≡ value_of (id_ce 36) policy_constraints_in self.now.extensions.items }
    {
        let Some(extension) = self.get_extension_unique(&Oid::new(POLICY_CONSTRAINTS))? else {
            return Ok(None);
        };
        match extension.parsed_extension() {
            ParsedExtension::PolicyConstraints(constraints) => Ok(Some(BasicExtension::new(
                extension.critical,
                constraints,
            ))),
            _ => Err(X509Error::InvalidExtensions),
        }
    }

    /// The extended key usage and the extension's critical flag (RFC 5280, 4.2.1.12). `None` if the
    /// certificate has no such extension.
    ///
    /// # Errors
    ///
    /// `DuplicateExtensions` if the extension occurs more than once; `InvalidExtensions` if its
    /// value wasn't parsed as one.
    pub fn extended_key_usage(
        &self,
    ) -> Result<Option<BasicExtension<&ExtendedKeyUsage<'a>>>, X509Error>
        ensures { told_view result ≡ value_of (id_ce 37) purposes_in self.now.extensions.items }
    {
        let Some(extension) = self.get_extension_unique(&Oid::new(EXTENDED_KEY_USAGE))? else {
            return Ok(None);
        };
        match extension.parsed_extension() {
            ParsedExtension::ExtendedKeyUsage(purposes) => Ok(Some(BasicExtension::new(
                extension.critical,
                purposes,
            ))),
            _ => Err(X509Error::InvalidExtensions),
        }
    }

    /// The number of further certificates in which anyPolicy counts, and the extension's critical
    /// flag (RFC 5280, 4.2.1.14). `None` if the certificate has no such extension.
    ///
    /// # Errors
    ///
    /// `DuplicateExtensions` if the extension occurs more than once; `InvalidExtensions` if its
    /// value wasn't parsed as one.
    pub fn inhibit_anypolicy(&self) -> Result<Option<BasicExtension<&InhibitAnyPolicy>>, X509Error>
        ensures { told_view result ≡ value_of (id_ce 54) inhibit_in self.now.extensions.items }
    {
        let Some(extension) = self.get_extension_unique(&Oid::new(INHIBIT_ANY_POLICY))? else {
            return Ok(None);
        };
        match extension.parsed_extension() {
            ParsedExtension::InhibitAnyPolicy(inhibit) => Ok(Some(BasicExtension::new(
                extension.critical,
                inhibit,
            ))),
            _ => Err(X509Error::InvalidExtensions),
        }
    }

    /// Whether the basic constraints have `cA` true (RFC 5280, 4.2.1.9); false if there are none,
    /// several, or none that was parsed.
    pub fn is_ca(&self) -> bool
        ensures { result ≡ says_authority (constraints_of self.now.extensions.items) }
    {
        match self.basic_constraints() {
            Ok(Some(constraints)) => constraints.value.ca,
            Ok(None) => false,
            Err(_) => false,
        }
    }
}

impl<'a> X509Certificate<'a> {
    /// The basic constraints and their critical flag, as [`TbsCertificate::basic_constraints`]
    /// reads them.
    ///
    /// # Errors
    ///
    /// `DuplicateExtensions` if the extension occurs more than once.
    pub fn basic_constraints(&self) -> Result<Option<BasicExtension<&BasicConstraints>>, X509Error>
        ensures { told_view result ≡ constraints_of self.now.tbs_certificate.extensions.items }
    {
        self.tbs_certificate.basic_constraints()
    }

    /// The key usage and its critical flag, as [`TbsCertificate::key_usage`] reads them.
    ///
    /// # Errors
    ///
    /// `DuplicateExtensions` or `InvalidExtensions`, as there.
    pub fn key_usage(&self) -> Result<Option<BasicExtension<&KeyUsage>>, X509Error>
        ensures { told_view result ≡ value_of (id_ce 15) usage_in self.now.tbs_certificate.extensions.items }
    {
        self.tbs_certificate.key_usage()
    }

    /// The subject's alternative names and their critical flag, as
    /// [`TbsCertificate::subject_alternative_name`] reads them.
    ///
    /// # Errors
    ///
    /// `DuplicateExtensions` or `InvalidExtensions`, as there.
    pub fn subject_alternative_name(
        &self,
    ) -> Result<Option<BasicExtension<&SubjectAlternativeName<'a>>>, X509Error>
        ensures { told_view result ≡ value_of (id_ce 17) alternative_in self.now.tbs_certificate.extensions.items }
    {
        self.tbs_certificate.subject_alternative_name()
    }

    /// The name constraints and their critical flag, as [`TbsCertificate::name_constraints`] reads
    /// them.
    ///
    /// # Errors
    ///
    /// `DuplicateExtensions` or `InvalidExtensions`, as there.
    pub fn name_constraints(
        &self,
    ) -> Result<Option<BasicExtension<&NameConstraints<'a>>>, X509Error>
        ensures { told_view result ≡ value_of (id_ce 30) name_constraints_in self.now.tbs_certificate.extensions.items }
    {
        self.tbs_certificate.name_constraints()
    }

    /// The policy mappings and their critical flag, as [`TbsCertificate::policy_mappings`] reads
    /// them.
    ///
    /// # Errors
    ///
    /// `DuplicateExtensions` or `InvalidExtensions`, as there.
    pub fn policy_mappings(&self) -> Result<Option<BasicExtension<&PolicyMappings<'a>>>, X509Error>
        ensures { told_view result ≡ value_of (id_ce 33) mappings_in self.now.tbs_certificate.extensions.items }
    {
        self.tbs_certificate.policy_mappings()
    }

    /// The policy constraints and their critical flag, as [`TbsCertificate::policy_constraints`]
    /// reads them.
    ///
    /// # Errors
    ///
    /// `DuplicateExtensions` or `InvalidExtensions`, as there.
    pub fn policy_constraints(
        &self,
    ) -> Result<Option<BasicExtension<&PolicyConstraints>>, X509Error>
        ensures { told_view result ≡ value_of (id_ce 36) policy_constraints_in self.now.tbs_certificate.extensions.items }
    {
        self.tbs_certificate.policy_constraints()
    }

    /// The extended key usage and its critical flag, as [`TbsCertificate::extended_key_usage`]
    /// reads them.
    ///
    /// # Errors
    ///
    /// `DuplicateExtensions` or `InvalidExtensions`, as there.
    pub fn extended_key_usage(
        &self,
    ) -> Result<Option<BasicExtension<&ExtendedKeyUsage<'a>>>, X509Error>
        ensures { told_view result ≡ value_of (id_ce 37) purposes_in self.now.tbs_certificate.extensions.items }
    {
        self.tbs_certificate.extended_key_usage()
    }

    /// The inhibitAnyPolicy number and its critical flag, as [`TbsCertificate::inhibit_anypolicy`]
    /// reads them.
    ///
    /// # Errors
    ///
    /// `DuplicateExtensions` or `InvalidExtensions`, as there.
    pub fn inhibit_anypolicy(&self) -> Result<Option<BasicExtension<&InhibitAnyPolicy>>, X509Error>
        ensures { told_view result ≡ value_of (id_ce 54) inhibit_in self.now.tbs_certificate.extensions.items }
    {
        self.tbs_certificate.inhibit_anypolicy()
    }

    /// Whether the basic constraints have `cA` true, as [`TbsCertificate::is_ca`] reads them.
    pub fn is_ca(&self) -> bool
        ensures { result ≡ says_authority (constraints_of self.now.tbs_certificate.extensions.items) }
    {
        self.tbs_certificate.is_ca()
    }
}
