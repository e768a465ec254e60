//! The numbers of rows in the tables of nodes, counted from the first of a node's table.

/// Of the Comprobante, whose table begins with three rows of namespaces.
pub mod comprobante {
    pub const FECHA: usize = 6;

    pub const FORMA_PAGO: usize = 7;

    pub const SUBTOTAL: usize = 10;

    pub const DESCUENTO: usize = 11;

    pub const MONEDA: usize = 12;

    pub const TIPO_CAMBIO: usize = 13;

    pub const TOTAL: usize = 14;

    pub const TIPO_DE_COMPROBANTE: usize = 15;
}

/// Of a Concepto.
pub mod concepto {
    pub const IMPORTE: usize = 7;

    pub const DESCUENTO: usize = 8;
}

/// Of the Impuestos of the Comprobante.
pub mod impuestos {
    pub const TOTAL_RETENIDOS: usize = 0;

    pub const TOTAL_TRASLADADOS: usize = 1;
}

/// Of a Retencion of the Comprobante.
pub mod retencion {
    pub const IMPORTE: usize = 1;
}

/// Of a Traslado, which are the same in a Concepto and in the Comprobante.
pub mod traslado {
    pub const TIPO_FACTOR: usize = 2;

    pub const TASA_O_CUOTA: usize = 3;

    pub const IMPORTE: usize = 4;
}
