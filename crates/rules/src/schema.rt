// The nodes of an invoice, the kinds of their values, and the catalogues of their codes.
ghost use Rattle.std.specs.Prelude.{◌≡◌};
ghost use Rattle.rules.specs.Kinds.{fixed_text};

/// The catalogues that codes are looked up in.
#[derive(Clone, Copy, Debug, PartialEq, Eq)]
pub enum Catalogue {
    FormaPago,
    Moneda,
    TipoDeComprobante,
    Exportacion,
    MetodoPago,
    CodigoPostal,
    RegimenFiscal,
    ResidenciaFiscal,
    UsoCFDI,
    ClaveProdServ,
    ClaveUnidad,
    ObjetoImp,
    Impuesto,
    TipoFactor,
}

/// The texts that are fixed to the letter: the version and the three namespace attributes.
#[derive(Clone, Copy, Debug, PartialEq, Eq)]
pub enum FixedText {
    Version,
    CfdiNamespace,
    XsiNamespace,
    SchemaLocation,
}

impl FixedText {
    /// The text itself.
    pub fn text(self) -> &'static [u8]
        ensures { result.now ≡ fixed_text self }
    {
        match self {
            FixedText::Version => b"4.0",
            FixedText::CfdiNamespace => b"http://www.sat.gob.mx/cfd/4",
            FixedText::XsiNamespace => b"http://www.w3.org/2001/XMLSchema-instance",
            FixedText::SchemaLocation =>
                b"http://www.sat.gob.mx/cfd/4 http://www.sat.gob.mx/sitio_internet/cfd/4/cfdv40.xsd",
        }
    }
}

/// The kinds of value that an attribute may have.
#[derive(Clone, Copy, Debug, PartialEq, Eq)]
pub enum Kind {
    Fixed(FixedText),
    /// One to so many characters, none of them `|`.
    Text(u16),
    Amount,
    /// An amount above zero.
    Positive,
    DateTime,
    /// So many digits.
    Digits(u8),
    /// Five ASCII letters or digits.
    Mark,
    Rfc,
    /// Base 64, perhaps none.
    Seal,
    /// One to ten ASCII letters or digits, in this catalogue.
    Code(Catalogue),
}

/// The nodes of an invoice; those of a Concepto and of the Comprobante itself are told apart.
#[derive(Clone, Copy, Debug, PartialEq, Eq)]
pub enum Node {
    Comprobante,
    Emisor,
    Receptor,
    Conceptos,
    Concepto,
    ConceptoImpuestos,
    ConceptoTraslados,
    ConceptoTraslado,
    ConceptoRetenciones,
    ConceptoRetencion,
    Impuestos,
    Retenciones,
    Retencion,
    Traslados,
    Traslado,
}
