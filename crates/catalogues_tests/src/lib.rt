// Examples of catalogue texts and of questions to sets.
#![tactic(auto)]

#[cfg(test)]
mod tests {
    use catalogues::{CatalogueText, Finding, Ruled, check, look_up};
    use rules::Catalogue;

    // Texts with the number and the place of their first fault, or 0.
    const TEXTS: [(&[u8], u8, usize); 9] = [
        (b"catalogo|clave|decimales\n", 0, 0),
        (b"", 16, 0),
        (b"catalogo|clave|decimales", 16, 0),
        (b"catalogo|clave|decimales\nMoneda|MXN|2", 17, 25),
        (b"catalogo|clave|decimales\n\n", 17, 25),
        (
            b"catalogo|clave|decimales\nMoneda|MXN|2\nMoneda|USD|2\nMoneda|MXN|0\n",
            17,
            51,
        ),
        (b"catalogo|clave|decimales\nMoneda|MXN|2\r\n", 17, 25),
        (
            b"catalogo|clave|decimales\nMoneda|MXN|2\nmoneda|USD|2\n",
            17,
            38,
        ),
        (b"catalogo|clave|decimales\nMoneda|MXN|7\n", 17, 25),
    ];

    #[test]
    fn first_faults(rt: HostRuntime) {
        for (text, number, place) in TEXTS {
            let told = match check(text) {
                Ok(()) => (0, 0),
                Err(fault) => (fault.number(), fault.place()),
            };
            assert_eq!(rt; told, (number, place));
        }
    }

    #[test]
    fn questions(rt: HostRuntime) {
        let set = CatalogueText::new(
            b"catalogo|clave|decimales\nMoneda|MXN|2\nMoneda|CLF|4\nClaveUnidad|H87|0\n",
        );
        assert_eq!(rt; look_up(&set, Catalogue::Moneda, b"CLF"), Ok(4));
        assert_eq!(rt;
            look_up(&set, Catalogue::Moneda, b"mxn"),
            Err(Finding::Unknown)
        );
        assert_eq!(rt;
            look_up(&set, Catalogue::TipoFactor, b"Tasa"),
            Err(Finding::Unknown)
        );
        let bad = CatalogueText::new(b"catalogo|clave|decimales\nMoneda|MXN|2");
        assert_eq!(rt;
            look_up(&bad, Catalogue::Moneda, b"MXN"),
            Err(Finding::Unknown)
        );
        assert_eq!(rt; look_up(&Ruled, Catalogue::CodigoPostal, b"44100"), Ok(0));
        assert_eq!(rt;
            look_up(&Ruled, Catalogue::CodigoPostal, b"441000"),
            Err(Finding::Unknown)
        );
    }
}
